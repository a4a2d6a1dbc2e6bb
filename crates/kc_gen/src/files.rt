// The four files.
ghost use Rattle.std.specs.Prelude.{◌≡◌, ◌≤◌, IfOk};
ghost use Rattle.kc_outside.specs.SureStore.{bytes_of};
ghost use Rattle.kc_gen.specs.Header.{dump};
ghost use Rattle.kc_gen.specs.Items.{hurt_item};
ghost use Rattle.kc_gen.specs.Texts.{map, plan};
ghost use Rattle.kc_gen.specs.Types.{btf};

use crate::header::core_file;
use crate::items::Made;
use crate::memory::memory;
use crate::texts::{MAP, PLAN};
use crate::types::types_file;
use kc_outside::{Bytes, FourFiles};
use kc_word::NoMemory;
use std::alloc::Global;

// Which item is hurt, of n.
fn hurt_item(n: u64, hurt: Option<u64>) -> Option<u64>
    requires { 1 ≤ n }
    ensures { result ≡ hurt_item n hurt }
{
    match hurt {
        Some(k) => Some(k % n),
        None => None,
    }
}

#[tactic(auto, unfolding(crate::specs::Texts::map))]
fn map_file(alloc: Global) -> Result<Vec<u8>, NoMemory>
    ensures { IfOk result (λ bytes. bytes.items ≡ map) }
{
    Ok(Vec::from_slice(alloc, MAP)?)
}

#[tactic(auto, unfolding(crate::specs::Texts::plan))]
fn plan_file(alloc: Global) -> Result<Vec<u8>, NoMemory>
    ensures { IfOk result (λ bytes. bytes.items ≡ plan) }
{
    Ok(Vec::from_slice(alloc, PLAN)?)
}

/// The files of n items: a dump in which the items form the ring `my_ring`, the tree `my_rb` and the xarray `my_xa`, the types
/// and the map of its kernel, and the plan that audits the three. With `hurt`, the `prev` word of that item, modulo n, is 0.
pub fn make(alloc: Global, n: u32, hurt: Option<u64>) -> Result<FourFiles, NoMemory>
    requires some { 1 ≤ n }
    requires few { n ≤ 100000 }

    ensures dump { IfOk result (λ files. bytes_of files.dump ≡ dump n hurt) }
    ensures btf { IfOk result (λ files. bytes_of files.btf ≡ btf) }
    ensures map { IfOk result (λ files. bytes_of files.map ≡ map) }
    ensures plan { IfOk result (λ files. bytes_of files.plan ≡ plan) }
{
    let n = u64::from(n);
    let made = Made {
        n,
        hurt: hurt_item(n, hurt),
    };
    let memory = memory(alloc, made)?;
    let dump = core_file(alloc, &memory)?;
    let btf = types_file(alloc)?;
    let map = map_file(alloc)?;
    let plan = plan_file(alloc)?;
    Ok(FourFiles {
        dump: Bytes::new(dump),
        btf: Bytes::new(btf),
        map: Bytes::new(map),
        plan: Bytes::new(plan),
    })
}
