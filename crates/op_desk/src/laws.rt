//! Laws of what disks spell. Each function does nothing: its contract is the law.

ghost use Rattle.op_desk.specs.Laws.{SpellOneListOfRounds, SpellOneHistory};

/// No bytes spell two lists of rounds, and no bytes spell two histories.
pub fn disks_spell_one_history()
    ensures rounds { SpellOneListOfRounds }
    ensures history { SpellOneHistory }
{}
