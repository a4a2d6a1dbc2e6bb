// What an element has to do with the address of its violation, and a member's path with its byte.
ghost use Rattle.kc_element.specs.Laws.{ElementsHold, StepsLeadBack};

/// Does nothing. The address of a violation lies in its element, at the byte that its rule is about. Each step of a member's path leads to a part of
/// the type, and goes on at the byte of that part that was looked for.
pub fn know_elements()
    ensures hold { ElementsHold }
    ensures steps { StepsLeadBack }
{}
