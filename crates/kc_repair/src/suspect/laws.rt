// What the definitions say.
ghost use Rattle.kc_repair.specs.Suspect.Laws.{SuspectsStand};

use kc_found::know_places;

/// Does nothing. Each suspect is a word of the dump whose bytes stand in the file at its offset, with another number than stands
/// there.
pub fn know_suspects()
    ensures { SuspectsStand }
{
    know_places();
}
