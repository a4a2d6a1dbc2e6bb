// What the tests of lists say, for a reader to believe and a caller to learn.
ghost use Rattle.kc_list.specs.ListedLaws.{HashChainsAreTested, RingsAreTested};

/// Does nothing. A list passes the test of a ring or of a hash chain exactly where it is that of one.
pub fn know_listed_rings()
    ensures rings { RingsAreTested }
    ensures chains { HashChainsAreTested }
{}
