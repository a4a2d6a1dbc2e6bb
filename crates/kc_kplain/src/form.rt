// What the words of a command line ask for.
ghost use Rattle.std.specs.Prelude.{◌≡◌, length, map};
ghost use Rattle.std.specs.String.{string_bytes};
ghost use Rattle.kc_kplain.specs.Forms.{form_of, form_view, is_audit, name_form};

/// What words ask for, by the first of them and by how many there are.
#[derive(Clone, Copy)]
pub enum PlainForm<'w> {
    /// The plain core file of the dump of this name.
    Core(&'w str),
    /// A command of kaudit's.
    Audit,
    /// Nothing.
    Usage,
}

// Whether a command of kaudit's that reads a dump has this name and so many words after it.
fn is_audit(name: &str, count: usize) -> bool
    ensures { result ≡ is_audit name.now count }
{
    match name {
        "word" => count == 3,
        "show" => count == 6,
        "check" => count == 4 || count == 5,
        "certify" => count == 4,
        "recheck" => count == 5,
        _ => false,
    }
}

// What the words after `core` ask for.
fn name_form(words: &[String]) -> PlainForm<'_>
    ensures { form_view result ≡ name_form (map string_bytes words.now) }
{
    let [name] = words else {
        return PlainForm::Usage;
    };
    PlainForm::Core(name.as_str())
}

/// What the words after the program's name ask for.
pub fn form_of(words: &[String]) -> PlainForm<'_>
    ensures { form_view result ≡ form_of (map string_bytes words.now) }
{
    let [word, words @ ..] = words else {
        return PlainForm::Usage;
    };
    if word.as_str() == "core" {
        name_form(words)
    } else if is_audit(word.as_str(), words.len()) {
        PlainForm::Audit
    } else {
        PlainForm::Usage
    }
}
