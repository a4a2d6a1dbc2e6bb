// What is asked of a dump.
ghost use Rattle.std.specs.Prelude.{◌≡◌, option_map};
ghost use Rattle.kc_files.specs.Wishes.{request_of, request_of_two, request_view, wish_of, wish_of_two, wish_view};

/// What is wished of the memory of a dump's kernel.
#[derive(Clone, Copy)]
pub enum Wish<'w> {
    /// The map of its kernel.
    Map,
    /// The types of its kernel.
    Types,
    /// The log of its kernel.
    Log,
    /// The modules of its kernel, a line each.
    Modules,
    /// The types of the module with this name.
    Module(&'w str),
}

/// What is asked of a dump.
#[derive(Clone, Copy)]
pub enum Request<'w> {
    /// The text of its VMCOREINFO note.
    Note,
    /// What is wished of its kernel's memory.
    Wish(Wish<'w>),
}

// The wish of a word.
fn wish_of(word: &str) -> Option<Wish<'_>>
    ensures { option_map wish_view result ≡ wish_of word.now }
{
    if word == "map" {
        Some(Wish::Map)
    } else if word == "types" {
        Some(Wish::Types)
    } else if word == "log" {
        Some(Wish::Log)
    } else if word == "modules" {
        Some(Wish::Modules)
    } else {
        None
    }
}

// The wish of two words.
fn wish_of_two<'w>(word: &str, name: &'w str) -> Option<Wish<'w>>
    ensures { option_map wish_view result ≡ wish_of_two word.now name.now }
{
    if word == "module" {
        Some(Wish::Module(name))
    } else {
        None
    }
}

/// The request of a word.
pub fn request_of(word: &str) -> Option<Request<'_>>
    ensures { option_map request_view result ≡ request_of word.now }
{
    if word == "note" {
        Some(Request::Note)
    } else {
        Some(Request::Wish(wish_of(word)?))
    }
}

/// The request of two words.
pub fn request_of_two<'w>(word: &str, name: &'w str) -> Option<Request<'w>>
    ensures { option_map request_view result ≡ request_of_two word.now name.now }
{
    Some(Request::Wish(wish_of_two(word, name)?))
}
