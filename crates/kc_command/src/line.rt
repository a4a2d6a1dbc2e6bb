// The line of a refusal.
ghost use Rattle.std.specs.Prelude.{◌≡◌, ◌++◌, Some, codes, decimal, IfOk, OnOk};
ghost use Rattle.kc_text.specs.Text.{hex};
ghost use Rattle.kc_kallsyms.specs.Modules.{list_key, member_key};
ghost use Rattle.kc_kallsyms.specs.Places.{line_key};
ghost use Rattle.kc_printk.specs.Note.{key_of};
ghost use Rattle.kc_command.specs.Lines.{audit_part, btf_code, btf_text, core_code, key_part, key_text, log_code, note_code, path_code, plan_code, plan_rule, refusal_line, refusal_text, report_code, slot_name, symbol_code, table_code};

use crate::refusal::{Refusal, ReportFault};
use kc_btf::{BRule, BtfFault};
use kc_elf::CoreFault;
use kc_expr::{PRule, PlanFault, PlanKey, spelling};
use kc_kallsyms::{
    ModuleList, ModuleMember, TableFault, TableLine, line_key, list_key, member_key,
};
use kc_layout::{PathFault, QRule};
use kc_notes::{NoteFault, NoteKey};
use kc_outside::Slot;
use kc_printk::{LogFault, LogLine, key_of};
use kc_syms::SymFault;
use kc_text::{push, push_hex, push_numbered};
use kc_word::NoMemory;
use std::alloc::Global;

fn push_core_code(text: &mut Vec<u8>, fault: CoreFault) -> Result<(), NoMemory>
    ensures { OnOk result (text.new.items ≡ text.old.items ++ core_code fault) }
{
    match fault {
        CoreFault::E1 => push(text, b"E1"),
        CoreFault::E2 => push(text, b"E2"),
        CoreFault::E3 => push(text, b"E3"),
        CoreFault::E4 => push(text, b"E4"),
        CoreFault::E5 => push(text, b"E5"),
        CoreFault::E6 => push(text, b"E6"),
        CoreFault::E7 => push(text, b"E7"),
        CoreFault::E8 => push(text, b"E8"),
        CoreFault::E9(index) => push_numbered(text, b"E9 index ", u64::from(index)),
        CoreFault::E10 => push(text, b"E10"),
    }
}

fn key_text(key: NoteKey) -> &'static [u8]
    ensures { result.now ≡ key_text key }
{
    match key {
        NoteKey::L5 => b"NUMBER(pgtable_l5_enabled)",
        NoteKey::Offset => b"KERNELOFFSET",
        NoteKey::Sme => b"NUMBER(sme_mask)",
    }
}

fn push_note_place(text: &mut Vec<u8>, part: u32, at: u64) -> Result<(), NoMemory>
    ensures { OnOk result (text.new.items ≡ text.old.items ++ (codes "V1 index " ++ decimal part ++ codes " at " ++ decimal at)) }
{
    push_numbered(text, b"V1 index ", u64::from(part))?;
    push_numbered(text, b" at ", at)
}

fn push_note_key(text: &mut Vec<u8>, key: NoteKey) -> Result<(), NoMemory>
    ensures { OnOk result (text.new.items ≡ text.old.items ++ (codes "V6 key " ++ key_text key)) }
{
    push(text, b"V6 key ")?;
    push(text, key_text(key))
}

fn push_note_code(text: &mut Vec<u8>, fault: NoteFault) -> Result<(), NoMemory>
    ensures { OnOk result (text.new.items ≡ text.old.items ++ note_code fault) }
{
    match fault {
        NoteFault::V1 { part, at } => push_note_place(text, part, at),
        NoteFault::V2 => push(text, b"V2"),
        NoteFault::V3 => push(text, b"V3"),
        NoteFault::V4 => push(text, b"V4"),
        NoteFault::V5 => push(text, b"V5"),
        NoteFault::V6(key) => push_note_key(text, key),
        NoteFault::V7 => push(text, b"V7"),
    }
}

fn btf_code(rule: BRule) -> &'static [u8]
    ensures { result.now ≡ btf_code rule }
{
    match rule {
        BRule::B1 => b"B1",
        BRule::B2 => b"B2",
        BRule::B3 => b"B3",
        BRule::B4 => b"B4",
        BRule::B5 => b"B5",
        BRule::B6 => b"B6",
        BRule::B7 => b"B7",
        BRule::B8 => b"B8",
    }
}

fn path_code(rule: QRule) -> &'static [u8]
    ensures { result.now ≡ path_code rule }
{
    match rule {
        QRule::Q2 => b"Q2",
        QRule::Q3 => b"Q3",
        QRule::Q4 => b"Q4",
        QRule::Q5 => b"Q5",
        QRule::Q6 => b"Q6",
        QRule::Q7 => b"Q7",
        QRule::Q8 => b"Q8",
    }
}

fn push_symbol_code(text: &mut Vec<u8>, fault: SymFault) -> Result<(), NoMemory>
    ensures { OnOk result (text.new.items ≡ text.old.items ++ symbol_code fault) }
{
    match fault {
        SymFault::S2 => push(text, b"S2"),
        SymFault::S3(first, other) => push_addresses(text, first, other),
    }
}

fn push_addresses(text: &mut Vec<u8>, first: u64, other: u64) -> Result<(), NoMemory>
    ensures { OnOk result (text.new.items ≡ text.old.items ++ (codes "S3 " ++ hex first ++ codes " " ++ hex other)) }
{
    push(text, b"S3 ")?;
    push_hex(text, first)?;
    push(text, b" ")?;
    push_hex(text, other)
}

fn slot_name(slot: Slot) -> &'static [u8]
    ensures { result.now ≡ slot_name slot }
{
    match slot {
        Slot::Dump => b"dump",
        Slot::Btf => b"btf",
        Slot::Map => b"map",
        Slot::Plan => b"plan",
        Slot::Report => b"cert",
        Slot::Module => b"module",
    }
}

fn push_core(text: &mut Vec<u8>, fault: CoreFault) -> Result<(), NoMemory>
    ensures { OnOk result (text.new.items ≡ text.old.items ++ (codes "dump " ++ core_code fault)) }
{
    push(text, b"dump ")?;
    push_core_code(text, fault)
}

fn push_notes(text: &mut Vec<u8>, fault: NoteFault) -> Result<(), NoMemory>
    ensures { OnOk result (text.new.items ≡ text.old.items ++ (codes "dump " ++ note_code fault)) }
{
    push(text, b"dump ")?;
    push_note_code(text, fault)
}

fn push_table_line(text: &mut Vec<u8>, line: TableLine) -> Result<(), NoMemory>
    ensures { OnOk result (text.new.items ≡ text.old.items ++ (codes "S4 key " ++ line_key line)) }
{
    push(text, b"S4 key ")?;
    push(text, line_key(line))
}

fn push_list(text: &mut Vec<u8>, list: ModuleList) -> Result<(), NoMemory>
    ensures { OnOk result (text.new.items ≡ text.old.items ++ (codes "S13 key " ++ list_key list)) }
{
    push(text, b"S13 key ")?;
    push(text, list_key(list))
}

fn push_member(text: &mut Vec<u8>, member: ModuleMember) -> Result<(), NoMemory>
    ensures { OnOk result (text.new.items ≡ text.old.items ++ (codes "S14 key " ++ member_key member)) }
{
    push(text, b"S14 key ")?;
    push(text, member_key(member))
}

fn push_table_code(text: &mut Vec<u8>, fault: TableFault) -> Result<(), NoMemory>
    ensures { OnOk result (text.new.items ≡ text.old.items ++ table_code fault) }
{
    match fault {
        TableFault::S4(line) => push_table_line(text, line),
        TableFault::S5(count) => push_numbered(text, b"S5 count ", u64::from(count)),
        TableFault::S6(number) => push_numbered(text, b"S6 token ", u64::from(number)),
        TableFault::S7(number) => push_numbered(text, b"S7 symbol ", u64::from(number)),
        TableFault::S8(number) => push_numbered(text, b"S8 symbol ", u64::from(number)),
        TableFault::S9 => push(text, b"S9"),
        TableFault::S10 => push(text, b"S10"),
        TableFault::S11 => push(text, b"S11"),
        TableFault::S12 => push(text, b"S12"),
        TableFault::S13(list) => push_list(text, list),
        TableFault::S14(member) => push_member(text, member),
        TableFault::S15 => push(text, b"S15"),
        TableFault::S16 => push(text, b"S16"),
        TableFault::S17 => push(text, b"S17"),
    }
}

fn push_table(text: &mut Vec<u8>, fault: TableFault) -> Result<(), NoMemory>
    ensures { OnOk result (text.new.items ≡ text.old.items ++ (codes "dump " ++ table_code fault)) }
{
    push(text, b"dump ")?;
    push_table_code(text, fault)
}

fn push_log_line(text: &mut Vec<u8>, line: LogLine) -> Result<(), NoMemory>
    ensures { OnOk result (text.new.items ≡ text.old.items ++ (codes "P1 key " ++ key_of line)) }
{
    push(text, b"P1 key ")?;
    push(text, key_of(line))
}

fn push_log_code(text: &mut Vec<u8>, fault: LogFault) -> Result<(), NoMemory>
    ensures { OnOk result (text.new.items ≡ text.old.items ++ log_code fault) }
{
    match fault {
        LogFault::P1(line) => push_log_line(text, line),
        LogFault::P2 => push(text, b"P2"),
        LogFault::P3 => push(text, b"P3"),
        LogFault::P4 => push(text, b"P4"),
    }
}

fn push_log(text: &mut Vec<u8>, fault: LogFault) -> Result<(), NoMemory>
    ensures { OnOk result (text.new.items ≡ text.old.items ++ (codes "log " ++ log_code fault)) }
{
    push(text, b"log ")?;
    push_log_code(text, fault)
}

fn push_too_long(text: &mut Vec<u8>, slot: Slot) -> Result<(), NoMemory>
    ensures { OnOk result (text.new.items ≡ text.old.items ++ (slot_name slot ++ codes " F1")) }
{
    push(text, slot_name(slot))?;
    push(text, b" F1")
}

fn push_btf(text: &mut Vec<u8>, name: &[u8], fault: BtfFault) -> Result<(), NoMemory>
    ensures { OnOk result (text.new.items ≡ text.old.items ++ (name.now ++ btf_text fault)) }
{
    push(text, name)?;
    push(text, btf_code(fault.rule))?;
    push_numbered(text, b" at ", fault.at)
}

fn push_symbol(text: &mut Vec<u8>, fault: SymFault) -> Result<(), NoMemory>
    ensures { OnOk result (text.new.items ≡ text.old.items ++ (codes "symbol " ++ symbol_code fault)) }
{
    push(text, b"symbol ")?;
    push_symbol_code(text, fault)
}

fn push_path(text: &mut Vec<u8>, fault: PathFault) -> Result<(), NoMemory>
    ensures { OnOk result (text.new.items ≡ text.old.items ++ (codes "path " ++ path_code fault.rule ++ codes " step " ++ decimal fault.step)) }
{
    push(text, b"path ")?;
    push(text, path_code(fault.rule))?;
    push_numbered(text, b" step ", u64::from(fault.step))
}

fn plan_rule(rule: PRule) -> &'static [u8]
    ensures { result.now ≡ plan_rule rule }
{
    match rule {
        PRule::P1 => b"P1",
        PRule::P2 => b"P2",
        PRule::P3 => b"P3",
        PRule::P4 => b"P4",
        PRule::P5 => b"P5",
        PRule::P6 => b"P6",
        PRule::P7 => b"P7",
        PRule::P8 => b"P8",
        PRule::P9 => b"P9",
        PRule::P10 => b"P10",
        PRule::P11 => b"P11",
        PRule::P12 => b"P12",
    }
}

fn push_audit(text: &mut Vec<u8>, audit: Option<u32>) -> Result<(), NoMemory>
    ensures { OnOk result (text.new.items ≡ text.old.items ++ audit_part audit) }
{
    match audit {
        Some(number) => push_numbered(text, b" audit ", u64::from(number)),
        None => Ok(()),
    }
}

fn push_spelled(text: &mut Vec<u8>, key: PlanKey) -> Result<(), NoMemory>
    ensures { OnOk result (text.new.items ≡ text.old.items ++ key_part (Some key)) }
{
    push(text, b" key ")?;
    push(text, spelling(key).as_bytes())
}

fn push_key(text: &mut Vec<u8>, key: Option<PlanKey>) -> Result<(), NoMemory>
    ensures { OnOk result (text.new.items ≡ text.old.items ++ key_part key) }
{
    match key {
        Some(key) => push_spelled(text, key),
        None => Ok(()),
    }
}

fn push_plan(text: &mut Vec<u8>, fault: PlanFault) -> Result<(), NoMemory>
    ensures { OnOk result (text.new.items ≡ text.old.items ++ (codes "plan " ++ plan_code fault)) }
{
    push(text, b"plan ")?;
    push(text, plan_rule(fault.rule))?;
    push_audit(text, fault.audit)?;
    push_key(text, fault.key)
}

fn push_report(text: &mut Vec<u8>, fault: ReportFault) -> Result<(), NoMemory>
    ensures { OnOk result (text.new.items ≡ text.old.items ++ (codes "report " ++ report_code fault)) }
{
    push(text, b"report ")?;
    match fault {
        ReportFault::F1 => push(text, b"F1"),
        ReportFault::Y1(at) => push_numbered(text, b"Y1 at ", at),
        ReportFault::Y2 => push(text, b"Y2"),
    }
}

fn push_refusal(text: &mut Vec<u8>, refusal: Refusal) -> Result<(), NoMemory>
    ensures { OnOk result (text.new.items ≡ text.old.items ++ refusal_text refusal) }
{
    match refusal {
        Refusal::Core(fault) => push_core(text, fault),
        Refusal::Notes(fault) => push_notes(text, fault),
        Refusal::Tables(fault) => push_table(text, fault),
        Refusal::Log(fault) => push_log(text, fault),
        Refusal::TooLong(slot) => push_too_long(text, slot),
        Refusal::Types(fault) => push_btf(text, b"btf ", fault),
        Refusal::Module(fault) => push_btf(text, b"module ", fault),
        Refusal::MapLine(line) => push_numbered(text, b"map S1 line ", line),
        Refusal::Symbol(fault) => push_symbol(text, fault),
        Refusal::NoType => push(text, b"path Q1 step 0"),
        Refusal::Path(fault) => push_path(text, fault),
        Refusal::Plan(fault) => push_plan(text, fault),
        Refusal::Certificate(at) => push_numbered(text, b"cert Z1 at ", at),
        Refusal::Report(fault) => push_report(text, fault),
    }
}

/// The line of a refusal.
///
/// # Errors
///
/// No memory was left.
pub fn refusal_line(alloc: Global, refusal: Refusal) -> Result<Vec<u8>, NoMemory>
    ensures { IfOk result (λ text. text.items ≡ refusal_line refusal) }
{
    let mut text = Vec::new(alloc);
    push(&mut text, b"refused ")?;
    push_refusal(&mut text, refusal)?;
    push(&mut text, b"\n")?;
    Ok(text)
}
