// What the table of rules is.
ghost use Rattle.kc_rules.specs.Laws.{CodesReadBack, HasEveryRule};

/// Does nothing. The list of rules has each of them, and each is read back from its code, whatever follows.
pub fn know_rules()
    ensures every { HasEveryRule }
    ensures back { CodesReadBack }
{}
