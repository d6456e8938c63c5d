//! The words of the command line.
ghost use Rattle.std.specs.Prelude.{◌≡◌, map, string_bytes};
ghost use Rattle.op_session.specs.Program.{is_command, is_journal};

/// The longest name of a journal, in bytes.
const JOURNAL_NAME_LIMIT: usize = 4096;

fn is_journal(name: &[u8]) -> bool
    ensures { result ≡ is_journal name.now }
{
    name.len() >= 1 && name.len() <= JOURNAL_NAME_LIMIT && name[0] != b'-'
}

/// Whether the words after the program's name are `apply JOURNAL`.
pub fn is_command(words: &[String]) -> bool
    ensures { result ≡ is_command (map string_bytes words.now) }
{
    match words {
        [command, journal] => command.as_str() == "apply" && is_journal(journal.as_bytes()),
        _ => false,
    }
}
