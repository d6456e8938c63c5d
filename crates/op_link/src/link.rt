//! Links, over which messages are posted.
ghost use Rattle.std.specs.Prelude.{◌≡◌, ◌≤◌, ℕ, List, IfOk};
ghost use Rattle.std.specs.declared.option.Option.{Option};
ghost use Rattle.op_causes.specs.Causes.{HasCause};
ghost use Rattle.op_link.specs.Posted.{Posted, Posts};

/// A post failed.
#[derive(Clone, Copy, Debug, PartialEq, Eq)]
pub struct LinkFault;

/// Where messages are posted, one after another.
pub trait Link {
    /// The secret that signs the messages. No call changes it.
    ghost secret_of: { Self → Option (List ℕ) };

    /// The messages that were posted, each with what its post answered, where it tells them.
    ghost posted: { Self → Option (List Posted) };

    /// How often it has failed.
    ghost faults: { Self → ℕ };

    /// The secret that signs the messages. `None` where no link is wired.
    fn secret(&self) -> Option<[u8; 32]>
        ensures { result ≡ secret_of self.now };

    /// Posts a message, and gives the status of the reply, from 100 to 999.
    fn post(&mut self, message: &[u8]) -> Result<u16, LinkFault>
        ensures status { IfOk result (λ status. (100 ≤ status) × (status ≤ 999)) }
        ensures posted { Posts (posted self.old) (posted self.new) message.now result }
        ensures secret { secret_of self.new ≡ secret_of self.old }
        ensures cause { HasCause (faults self.old) (faults self.new) result };
}
