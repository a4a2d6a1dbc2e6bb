// The texts that cases name.
use std::{fs, io};

// The plans that cases name, each a file.
const PLANS: [&str; 11] = [
    "ring", "tree", "ids", "hash", "nest", "kin", "way", "all", "caches", "mitem", "pids",
];

/// A plan with its name.
#[derive(Drop)]
struct NamedPlan {
    name: &'static str,
    text: String,
}

/// The texts that cases name.
#[derive(Drop)]
pub struct Texts {
    /// The usage of kaudit.
    pub usage: String,
    plans: Vec<NamedPlan>,
}

impl Texts {
    /// Reads the texts from their files.
    pub fn read(rt: &HostRuntime) -> io::Result<Texts> {
        let mut plans = Vec::new(rt.alloc());
        for name in PLANS {
            let file = format!(in rt.alloc(); "{name}.toml")?;
            let text = fs::read_to_string(rt, file.as_str())?;
            plans.push(NamedPlan { name, text })?;
        }
        Ok(Texts {
            usage: fs::read_to_string(rt, "usage.txt")?,
            plans,
        })
    }

    /// The plan with a name, or nothing.
    pub fn plan(&self, name: &str) -> &str {
        match self.plans.iter().find(|plan| plan.name == name) {
            Some(plan) => plan.text.as_str(),
            None => "",
        }
    }
}
