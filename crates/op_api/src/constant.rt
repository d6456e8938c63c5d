//! Replies whose bytes are constant.
ghost use Rattle.std.specs.Prelude.{◌≡◌, ℕ, List};
ghost use Rattle.op_model.specs.Printed.{printed};
ghost use Rattle.op_model.specs.declared.reply.Refusal.TheVariants.{DiskFault, JournalFull};
ghost use Rattle.op_model.specs.declared.reply.ReplyBody.TheVariants.{Refused};

/// The reply `503 disk_fault`, whatever the origin. It takes no memory.
pub fn disk_fault_reply() -> &'static [u8]
    ensures { (origin : List ℕ) → result.now ≡ printed (record { origin = origin; body = Refused DiskFault }) }
{
    b"HTTP/1.1 503 Service Unavailable\r\nconnection: close\r\ncontent-length: 31\r\ncontent-type: application/json\r\n\r\n{\"error\":{\"code\":\"disk_fault\"}}"
}

/// The reply `507 journal_full`, whatever the origin. It takes no memory.
pub fn journal_full_reply() -> &'static [u8]
    ensures { (origin : List ℕ) → result.now ≡ printed (record { origin = origin; body = Refused JournalFull }) }
{
    b"HTTP/1.1 507 Insufficient Storage\r\nconnection: close\r\ncontent-length: 33\r\ncontent-type: application/json\r\n\r\n{\"error\":{\"code\":\"journal_full\"}}"
}
