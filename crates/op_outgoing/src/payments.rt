//! Payments by number.
ghost use Rattle.std.specs.Prelude.{◌≡◌, ◌<◌, ◌++◌, ◌∷◌, [], length, true, IsTrue, IfOk, IfSome, OnErr, Some, is_some};
ghost use Rattle.std.specs.Option.{option_copied, option_map_or};
ghost use Rattle.op_model.specs.History.{nth, with_item};
ghost use Rattle.op_model.specs.Payments.{is_ended};
ghost use Rattle.op_outgoing.specs.Progress.{with_progress, is_alive, CanBecome};
ghost use Rattle.op_outgoing.specs.Sound.{IsSoundRow};
ghost use Rattle.op_outgoing.specs.Work.{due_steps, next_cursor};

use crate::progress::Progress;
use op_model::{OutgoingRow, PaymentState, Task};
use std::alloc::{AllocError, Global};
use std::marker::Model;

/// Payments by number, from 1, in the order in which they were made. Contracts see the list of them.
#[derive(Drop)]
pub struct Payments {
    kept: Vec<OutgoingRow>,
    // The numbers of those that have not ended, so that the others are not walked.
    running: Vec<u64>,
}

impl Model for Payments {
    ghost use Rattle.std.specs.Prelude.{List};
    ghost use Rattle.op_model.specs.declared.row.OutgoingRow.{OutgoingRow};

    ghost Value = { List OutgoingRow };

    ghost use Rattle.op_outgoing.specs.Work.{AreKept};

    ghost view = { λ a. a.kept.items };

    ghost invariant = { λ a. AreKept a.kept.items a.running.items };
}

/// The steps that are due, and where the next round begins.
#[derive(Drop)]
pub struct Due {
    pub tasks: Vec<Task>,
    pub cursor: u64,
}

/// Whether a state is an end.
pub fn has_ended(state: PaymentState) -> bool
    ensures { result ≡ is_ended state }
{
    match state {
        PaymentState::Completed | PaymentState::Failed => true,
        PaymentState::Funding | PaymentState::Sending => false,
    }
}

impl Payments {
    /// No payments.
    pub fn new(alloc: Global) -> Payments
        ensures { result ≡ [] }
    {
        Payments {
            kept: Vec::new(alloc),
            running: Vec::new(alloc),
        }
    }

    /// Puts a payment behind those that are there, and answers its number. Where memory is short, nothing has changed.
    pub fn push(&mut self, row: OutgoingRow) -> Result<u64, AllocError>
        requires sound { IsSoundRow row }
        requires alive { is_alive row ≡ true }
        ensures ok { IfOk result (λ n. (self.new ≡ self.old ++ row ∷ []) × (n ≡ length self.new)) }
        ensures err { OnErr result (self.new ≡ self.old) }
    {
        self.kept.reserve(1)?;
        self.running.reserve(1)?;
        let number = self.kept.len() as u64 + 1;
        self.running.push_reserved(number);
        self.kept.push_reserved(row);
        Ok(number)
    }

    /// Payment `n`, if it is there.
    pub fn find(&self, n: u64) -> Option<&OutgoingRow>
        ensures value { option_copied result ≡ nth self.now n }
        ensures sound { IfSome result (λ row. IsSoundRow row.now) }
    {
        let place = n.checked_sub(1)?;
        self.kept.get(place as usize)
    }

    /// Payment `n`.
    pub fn at(&self, n: u64) -> &OutgoingRow
        requires { IsTrue (is_some (nth self.now n)) }
        ensures found { nth self.now n ≡ Some result.now }
        ensures sound { IsSoundRow result.now }
    {
        &self.kept[n as usize - 1]
    }

    /// How many payments there are.
    pub fn count(&self) -> u64
        ensures { result ≡ length self.now }
    {
        self.kept.len() as u64
    }

    /// Writes how far payment `n` has come. Takes no memory.
    pub fn set(&mut self, n: u64, progress: Progress)
        requires there { IsTrue (is_some (nth self.old n)) }
        requires can { IfSome (nth self.old n) (λ row. CanBecome progress row) }
        ensures { self.new ≡ with_item (with_progress progress) self.old n }
    {
        let row = &mut self.kept[n as usize - 1];
        row.state = progress.state;
        row.step = progress.step;
        row.sent = progress.sent;
        row.fee = progress.fee;
        row.delivered = progress.delivered;
        row.reason = progress.reason;
        if has_ended(progress.state) {
            self.running.retain(|number| *number != n);
        }
    }

    /// The steps of the first `room` payments above a cursor that have not ended, in the order of their numbers, and
    /// the number of the last of them, or 0 where fewer than `room` were left.
    pub fn due(&self, alloc: Global, cursor: u64, room: usize) -> Result<Due, AllocError>
        requires { 0 < room }
        ensures { IfOk result (λ due. (due.tasks.items ≡ due_steps self.now cursor room)
            × (due.cursor ≡ next_cursor self.now cursor room)) }
    {
        let mut tasks = Vec::new(alloc);
        let mut last = 0;
        for number in &self.running {
            if tasks.len() == room {
                return Ok(Due {
                    tasks,
                    cursor: last,
                });
            }
            if *number > cursor {
                tasks.push(Task::Step {
                    payment: *number,
                    k: self.step_of(*number),
                })?;
                last = *number;
            }
        }
        let next = if tasks.len() < room { 0 } else { last };
        Ok(Due {
            tasks,
            cursor: next,
        })
    }

    // The step number of payment `n`.
    fn step_of(&self, n: u64) -> u64
        ensures { result ≡ option_map_or (λ row. row.step) (nth self.now n) 0 }
    {
        match self.find(n) {
            Some(row) => row.step,
            None => 0,
        }
    }
}
