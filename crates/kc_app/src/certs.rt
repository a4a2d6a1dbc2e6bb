// The commands of certificates.
ghost use Rattle.std.specs.Prelude.{◌≡◌, map, option_map, Some};
ghost use Rattle.std.specs.Option.{ForSome};
ghost use Rattle.std.specs.String.{string_bytes};
ghost use Rattle.kc_outside.specs.declared.store.Slot.{Slot};
ghost use Rattle.kc_command.specs.Ends.Asked.{word_in};
ghost use Rattle.kc_app.specs.Fitted.{RepliesTo};
ghost use Rattle.kc_app.specs.Certify.{certify_asks};
ghost use Rattle.kc_app.specs.Program.{certs_asks, certs_view};
ghost use Rattle.kc_app.specs.Recheck.{recheck_asks};
ghost use Rattle.kc_app.specs.Reads.{ReadsFiles};

use crate::plan_files::PlanFiles;
use crate::recheck::Asks as CertFiles;
use kc_command::{Answer, Halt, KernelFiles};
use kc_outside::Store;
use std::alloc::Global;

/// What a command of certificates asks.
#[derive(Clone, Copy)]
pub enum CertAsks<'w> {
    /// A certificate of a dump.
    Certify(PlanFiles<'w>),
    /// Whether one fits a dump.
    Recheck(CertFiles<'w>),
}

// What the words of `recheck` ask.
fn read_five(most: u32, words: &[String]) -> Option<CertAsks<'_>>
    ensures asked { option_map certs_view result ≡ recheck_asks most (map string_bytes words.now) }
{
    let [dump, btf, map, plan, cert] = words else {
        return None;
    };
    let kernel = KernelFiles {
        dump: dump.as_str(),
        btf: btf.as_str(),
        map: map.as_str(),
    };
    let files = PlanFiles {
        kernel,
        plan: plan.as_str(),
        most,
    };
    Some(CertAsks::Recheck(CertFiles {
        files,
        cert: cert.as_str(),
    }))
}

// What the words of `certify` ask.
fn read_four(most: u32, words: &[String]) -> Option<CertAsks<'_>>
    ensures asked { option_map certs_view result ≡ certify_asks most (map string_bytes words.now) }
{
    let [dump, btf, map, plan] = words else {
        return None;
    };
    let kernel = KernelFiles {
        dump: dump.as_str(),
        btf: btf.as_str(),
        map: map.as_str(),
    };
    Some(CertAsks::Certify(PlanFiles {
        kernel,
        plan: plan.as_str(),
        most,
    }))
}

/// What words ask, the first of which names the command. `None` where they are no command of certificates.
pub fn read(most: u32, words: &[String]) -> Option<CertAsks<'_>>
    ensures asked { option_map certs_view result ≡ certs_asks most (map string_bytes words.now) }
{
    let [name, words @ ..] = words else {
        return None;
    };
    match name.as_str() {
        "certify" => read_four(most, words),
        "recheck" => read_five(most, words),
        _ => None,
    }
}

/// The answer to what is asked.
pub fn reply<S: Store>(alloc: Global, store: &mut S, asks: &CertAsks<'_>) -> Result<Answer, Halt>
    requires { (slot : Slot) → ForSome (word_in (Some (certs_view asks.now)) slot) (S.may store.old slot) }

    ensures output { RepliesTo (Some (certs_view asks.now)) (S.files store.old) result (S.opened store.old)
        (S.opened store.new) }
    ensures reads { ReadsFiles S.files S.faults result store.old store.new }
{
    match asks {
        CertAsks::Certify(asks) => crate::certify::certify(alloc, store, asks),
        CertAsks::Recheck(asks) => crate::recheck::recheck(alloc, store, asks),
    }
}
