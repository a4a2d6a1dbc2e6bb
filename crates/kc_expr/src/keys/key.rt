// How the keys of a plan are spelled.
ghost use Rattle.std.specs.Prelude.{◌≡◌};
ghost use Rattle.kc_expr.specs.Keys.Keys.{spelled};

use crate::keys::fault::PlanKey;

/// How a key is spelled. A key that isn't for its table, whatever the kind, is told as `other`; none is
/// asked for as that.
pub fn spelling(key: PlanKey) -> &'static str
    ensures { result.now ≡ spelled key }
{
    match key {
        PlanKey::Version => "version",
        PlanKey::Tail => "tail",
        PlanKey::Audit => "audit",
        PlanKey::Name => "name",
        PlanKey::Kind => "kind",
        PlanKey::Root => "root",
        PlanKey::RootType => "root_type",
        PlanKey::RootPath => "root_path",
        PlanKey::From => "from",
        PlanKey::Optional => "optional",
        PlanKey::Element => "element",
        PlanKey::Link => "link",
        PlanKey::Key => "key",
        PlanKey::Unique => "unique",
        PlanKey::Cached => "cached",
        PlanKey::Check => "check",
        PlanKey::Each => "each",
        PlanKey::Other => "other",
    }
}
