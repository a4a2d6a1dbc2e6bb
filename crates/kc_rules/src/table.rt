// The table of rules.
ghost use Rattle.std.specs.Prelude.{◌≡◌};
ghost use Rattle.kc_text.specs.Answers.{Gives};
ghost use Rattle.kc_rules.specs.Codes.{rule_format};
ghost use Rattle.kc_rules.specs.Rules.{row_of, row_view};

use crate::way::Way;
use kc_memory::Rule;
use kc_text::{Written, read_one_of};

/// What is said of a rule: a row of the table.
#[derive(Clone, Copy)]
pub struct RuleRow {
    /// Its code, which is its name.
    pub code: &'static [u8],
    /// What is wrong where it is broken, in a sentence.
    pub says: &'static [u8],
    /// What may be wrong then.
    pub way: Way,
}

const fn row(code: &'static [u8], says: &'static [u8], way: Way) -> RuleRow
    ensures { row_view result ≡ record { code = code.now; says = says.now; way = way } }
{
    RuleRow { code, says, way }
}

/// The row of a rule: its code, its sentence and what is suspected.
pub fn row_of(rule: Rule) -> RuleRow
    ensures { row_view result ≡ row_of rule }
{
    match rule {
        Rule::M1 => row(
            b"M1",
            b"the address of a word isn't a multiple of 8",
            Way::Led,
        ),
        Rule::M2 => row(b"M2", b"the address of a word isn't canonical", Way::Led),
        Rule::M3 => row(
            b"M3",
            b"an entry of the page tables isn't in the dump",
            Way::Led,
        ),
        Rule::M4 => row(
            b"M4",
            b"an entry of the page tables isn't present",
            Way::Led,
        ),
        Rule::M5 => row(
            b"M5",
            b"an entry of the page tables has a reserved bit set",
            Way::Led,
        ),
        Rule::M6 => row(
            b"M6",
            b"the word at the address isn't in the dump",
            Way::Led,
        ),
        Rule::N => row(b"N", b"a pointer is null where one must lead on", Way::Led),
        Rule::K => row(
            b"K",
            b"a list's pointer is the value of a node that was taken out",
            Way::Led,
        ),
        Rule::A => row(b"A", b"a word is met twice in one walk", Way::Met),
        Rule::L1 => row(b"L1", b"prev isn't the node before", Way::Before),
        Rule::H1 => row(
            b"H1",
            b"pprev isn't the address of the pointer that leads here",
            Way::Pointed,
        ),
        Rule::R1 => row(b"R1", b"the parent isn't the node above", Way::Parent),
        Rule::R2 => row(b"R2", b"the node at the top is red", Way::Top),
        Rule::R3 => row(b"R3", b"a red node is below a red one", Way::Colour),
        Rule::R4 => row(
            b"R4",
            b"the key is out of order against a node above",
            Way::Shown,
        ),
        Rule::R5 => row(
            b"R5",
            b"a way down passes another number of black nodes than the first",
            Way::Balance,
        ),
        Rule::R6 => row(b"R6", b"rb_leftmost isn't the first node", Way::Word),
        Rule::X1 => row(b"X1", b"shift isn't that of the node's level", Way::Bytes),
        Rule::X2 => row(
            b"X2",
            b"offset isn't the number of the node's slot",
            Way::Byte,
        ),
        Rule::X3 => row(b"X3", b"parent isn't the node above", Way::Word),
        Rule::X4 => row(b"X4", b"array isn't the xarray", Way::Word),
        Rule::X5 => row(b"X5", b"count isn't the number of slots in use", Way::Count),
        Rule::X6 => row(
            b"X6",
            b"nr_values isn't the number of slots with values",
            Way::Byte,
        ),
        Rule::X7 => row(b"X7", b"an entry can't stand in its slot", Way::Entry),
        Rule::X8 => row(
            b"X8",
            b"a sibling entry names no entry that has siblings",
            Way::Entry,
        ),
        Rule::X9 => row(b"X9", b"a node hangs below the lowest level", Way::Entry),
        Rule::U1 => row(b"U1", b"the slab names another cache", Way::Named),
        Rule::U2 => row(b"U2", b"the slab belongs to a processor", Way::Member),
        Rule::U3 => row(b"U3", b"a size or a number of objects can't be", Way::Shown),
        Rule::U4 => row(b"U4", b"the slab isn't a page's descriptor", Way::Laid),
        Rule::U5 => row(
            b"U5",
            b"a free pointer leads to no object of the slab",
            Way::Free,
        ),
        Rule::U6 => row(
            b"U6",
            b"the free list isn't as long as objects less inuse",
            Way::Listed,
        ),
        Rule::U7 => row(
            b"U7",
            b"the list of partial slabs isn't as long as nr_partial",
            Way::Member,
        ),
        Rule::T1 => row(
            b"T1",
            b"group_leader isn't the leader of the thread",
            Way::Member,
        ),
        Rule::T2 => row(b"T2", b"the leader's pid isn't its tgid", Way::Own),
        Rule::T3 => row(b"T3", b"signal isn't the leader's", Way::Member),
        Rule::T4 => row(b"T4", b"tgid isn't the leader's", Way::Member),
        Rule::T5 => row(
            b"T5",
            b"real_parent isn't the task that lists the child",
            Way::Member,
        ),
        Rule::T6 => row(
            b"T6",
            b"the magic number at the end of the stack is gone",
            Way::Word,
        ),
        Rule::T7 => row(b"T7", b"the leader isn't among its threads", Way::Shown),
        Rule::G1 => row(
            b"G1",
            b"the number of the process id isn't its index in the table",
            Way::Process,
        ),
        Rule::G2 => row(
            b"G2",
            b"thread_pid isn't the process id whose chain the task is on",
            Way::Member,
        ),
        Rule::C => row(b"C", b"a check of the plan isn't met", Way::Check),
    }
}

// A rule as it is written: by its code.
#[derive(Clone, Copy)]
pub struct Coded(pub Rule);

impl Written for Coded {
    ghost use Rattle.kc_rules.specs.Rules.{row_of};

    ghost text = { λ c. (row_of c.0).code };

    fn text(&self) -> &'static [u8] {
        row_of(self.0).code
    }
}

// The rules, in the order in which they are tried.
const RULES: [Coded; 43] = [
    Coded(Rule::M1),
    Coded(Rule::M2),
    Coded(Rule::M3),
    Coded(Rule::M4),
    Coded(Rule::M5),
    Coded(Rule::M6),
    Coded(Rule::N),
    Coded(Rule::K),
    Coded(Rule::A),
    Coded(Rule::L1),
    Coded(Rule::H1),
    Coded(Rule::R1),
    Coded(Rule::R2),
    Coded(Rule::R3),
    Coded(Rule::R4),
    Coded(Rule::R5),
    Coded(Rule::R6),
    Coded(Rule::X1),
    Coded(Rule::X2),
    Coded(Rule::X3),
    Coded(Rule::X4),
    Coded(Rule::X5),
    Coded(Rule::X6),
    Coded(Rule::X7),
    Coded(Rule::X8),
    Coded(Rule::X9),
    Coded(Rule::U1),
    Coded(Rule::U2),
    Coded(Rule::U3),
    Coded(Rule::U4),
    Coded(Rule::U5),
    Coded(Rule::U6),
    Coded(Rule::U7),
    Coded(Rule::T1),
    Coded(Rule::T2),
    Coded(Rule::T3),
    Coded(Rule::T4),
    Coded(Rule::T5),
    Coded(Rule::T6),
    Coded(Rule::T7),
    Coded(Rule::G1),
    Coded(Rule::G2),
    Coded(Rule::C),
];

/// Reads the code of a rule, and says what bytes are after it.
///
/// # Errors
///
/// The bytes from the one on where they fit none of the codes.
pub fn read_rule(bytes: &[u8]) -> Result<(Rule, &[u8]), &[u8]>
    ensures { Gives (λ r. (r.0, r.1.now)) result (rule_format.read bytes.now) }
{
    let (coded, rest) = read_one_of(bytes, &RULES)?;
    Ok((coded.0, rest))
}
