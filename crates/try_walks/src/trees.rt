// Red-black trees. A case gives what is asked, and the words of a tree that are changed.
use crate::walk::Walks;
use anyhow::{Context, Result, bail};
use kc_cases::{Case, CaseFile, answer_text};
use kc_found::RbShape;
use kc_rb::rb_walk;
use kc_word::{Bits, Steps};
use std::alloc::Global;
use std::sync::ledger::Ledger;

/// Red-black trees, whose nodes have the words of the parent and the colour, and of the right and the left child.
pub struct Trees;

impl Walks for Trees {
    fn answer<L: Ledger>(
        &self,
        alloc: Global,
        case: &Case<'_>,
        steps: &mut Steps<L>,
    ) -> Result<String> {
        let Case { file, given } = case;
        let root = file.number("root")?;
        let (asked, changed) = given.split_once(' ').context("no question")?;
        let mut space = if asked == "spine" {
            file.memory(alloc, "", spine(alloc, file, changed)?.as_str())?
        } else {
            file.memory(alloc, changed, file.section("words")?)?
        };
        let walk = rb_walk(alloc, &mut space, &shape_of(asked)?, root, 7, steps);
        Ok(answer_text(alloc, walk, root)?)
    }
}

// The bits of the key, counted from the element, which begins 40 bytes before its node.
fn key_of(asked: &str) -> Result<Option<Bits>> {
    let (bit, width, signed) = match asked {
        // A plain root or a cached one, and no key.
        "plain" | "cached" | "spine" => return Ok(None),
        // The key is 32 bits, signed or not, in the word before the node.
        "signed" | "unique" => (256, 32, true),
        "unsigned" => (256, 32, false),
        // It is three bits with sign, from bit 32 of that word on, or 32 bits from its bit 48 on.
        "field" | "unique_field" => (288, 3, true),
        "across" => (304, 32, false),
        _ => bail!("an unknown question"),
    };
    Ok(Some(Bits { bit, width, signed }))
}

fn shape_of(asked: &str) -> Result<RbShape> {
    Ok(RbShape {
        parent_color: 0,
        right: 8,
        left: 16,
        root: 0,
        leftmost: (asked == "cached").then_some(8),
        link: 40,
        key: key_of(asked)?,
        unique: asked == "unique" || asked == "unique_field",
    })
}

// The words of 1,000 black nodes one below the other, on the side of the word at this offset. The others are 0.
fn spine(alloc: Global, file: &CaseFile, side: &str) -> Result<String> {
    let top = file.number("top")?;
    let mut words = String::from_str(alloc, "root=top top=1")?;
    for i in 1..1000_u64 {
        let node = top.wrapping_add(i.wrapping_mul(0x40));
        let above = node.wrapping_sub(0x40);
        words.push_str(&format!(in alloc; " {above}+{side}={node} {node}={above}+1")?)?;
    }
    words.push_str(" top..top+64000=0")?;
    Ok(words)
}
