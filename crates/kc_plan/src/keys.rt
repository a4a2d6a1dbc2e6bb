// The keys of a plan.
use kc_expr::PlanKey;

// The keys of a plan.
pub(crate) const TOP_KEYS: [PlanKey; 3] = [PlanKey::Version, PlanKey::Tail, PlanKey::Audit];

// The keys of an audit.
pub(crate) const AUDIT_KEYS: [PlanKey; 14] = [
    PlanKey::Name,
    PlanKey::Kind,
    PlanKey::Root,
    PlanKey::RootType,
    PlanKey::RootPath,
    PlanKey::From,
    PlanKey::Optional,
    PlanKey::Element,
    PlanKey::Link,
    PlanKey::Key,
    PlanKey::Unique,
    PlanKey::Cached,
    PlanKey::Check,
    PlanKey::Each,
];
