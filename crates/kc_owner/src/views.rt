// What is looked at.
ghost use Rattle.std.specs.Prelude.{◌≡◌};
ghost use Rattle.kc_owner.specs.Looked.{looked_at};

use kc_btf::Btf;
use kc_found::Asked;
use kc_view::View;

/// No audit asks, and what is looked at, by its virtual address, is named as the start.
pub fn looked_at(at: u64) -> Asked
    ensures { result ≡ looked_at at }
{
    Asked {
        audit: 0,
        start: at,
    }
}

/// What lies at a virtual address, whose fields are found by their offsets alone: the type's number is that of `void`.
pub fn view_at(btf: &Btf, at: u64) -> View<'_>
    ensures { result ≡ record { types = btf.now; ty = 0; at = at } }
{
    View::new(btf, 0, at)
}
