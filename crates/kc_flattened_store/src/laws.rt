// What the definition of a refusal says. The function does nothing.
ghost use Rattle.kc_flattened_store.specs.Broken.{RefusedAreBroken};

/// Does nothing. A reader learns from it that a flattened file that is refused is as the fault says, in the words of its format.
pub fn know_refusals()
    ensures { RefusedAreBroken }
{}
