// What the definitions say, for a reader to believe and a caller to learn.
ghost use Rattle.kc_view.specs.Laws.{PathsStand, ReadsFromByte, ReadsWhereLed, ValuesStand};

use kc_memory::know_numbers;

/// Does nothing. The places that a field's number or a path shows are true of the dump, a field is read where a
/// path to it leads, and its number begins in a byte counted from the address behind its pointers.
pub fn know_values()
    ensures values { ValuesStand }
    ensures paths { PathsStand }
    ensures led { ReadsWhereLed }
    ensures bytes { ReadsFromByte }
{
    know_numbers();
}
