// Why a file, or what is looked up in it, is refused.
ghost use Rattle.std.specs.Prelude.{◌≡◌};
ghost use Rattle.kc_command.specs.declared.refusal.Refusal.TheVariants.{Core, Notes, Tables, Log, Types, Symbol, Path, Plan};

use kc_btf::BtfFault;
use kc_elf::CoreFault;
use kc_expr::PlanFault;
use kc_kallsyms::TableFault;
use kc_layout::PathFault;
use kc_notes::NoteFault;
use kc_outside::Slot;
use kc_printk::LogFault;
use kc_syms::SymFault;

/// Why the file of a report is refused.
#[derive(Clone, Copy, Debug, PartialEq, Eq)]
pub enum ReportFault {
    /// It is above 1 MiB.
    F1,
    /// It is no report's text. Its longest front that begins some report's text has this length in bytes.
    Y1(u64),
    /// It isn't the report of this plan on this dump.
    Y2,
}

/// The first fault of a command's files, or of what it looks up in them.
#[derive(Clone, Copy, Debug, PartialEq, Eq)]
pub enum Refusal {
    /// The dump is no core file that can be read.
    Core(CoreFault),
    /// The dump's notes don't tell what is needed.
    Notes(NoteFault),
    /// The dump's own symbol table is none, or doesn't lead to what is needed.
    Tables(TableFault),
    /// The dump's own log is none, or its notes don't lead to it.
    Log(LogFault),
    /// The file in this slot is above its limit of bytes.
    TooLong(Slot),
    /// The file of types breaks a rule.
    Types(BtfFault),
    /// The file of a module's types breaks a rule.
    Module(BtfFault),
    /// The map's line with this number, from 1, is no row. It is the first such line.
    MapLine(u64),
    /// The symbol has no address.
    Symbol(SymFault),
    /// No struct or union has the name.
    NoType,
    /// The path leads nowhere.
    Path(PathFault),
    /// The plan breaks a rule.
    Plan(PlanFault),
    /// The file of a certificate is no certificate's text. Its longest front that begins some certificate's text has this
    /// length in bytes.
    Certificate(u64),
    /// The file of a report is too long, is no report's text, or is the report of something else.
    Report(ReportFault),
}

impl From<CoreFault> for Refusal {
    ghost from_gives = { λ fault refusal. refusal ≡ Core fault };

    fn from(fault: CoreFault) -> Self {
        Refusal::Core(fault)
    }
}

impl From<NoteFault> for Refusal {
    ghost from_gives = { λ fault refusal. refusal ≡ Notes fault };

    fn from(fault: NoteFault) -> Self {
        Refusal::Notes(fault)
    }
}

impl From<TableFault> for Refusal {
    ghost from_gives = { λ fault refusal. refusal ≡ Tables fault };

    fn from(fault: TableFault) -> Self {
        Refusal::Tables(fault)
    }
}

impl From<LogFault> for Refusal {
    ghost from_gives = { λ fault refusal. refusal ≡ Log fault };

    fn from(fault: LogFault) -> Self {
        Refusal::Log(fault)
    }
}

impl From<BtfFault> for Refusal {
    ghost from_gives = { λ fault refusal. refusal ≡ Types fault };

    fn from(fault: BtfFault) -> Self {
        Refusal::Types(fault)
    }
}

impl From<SymFault> for Refusal {
    ghost from_gives = { λ fault refusal. refusal ≡ Symbol fault };

    fn from(fault: SymFault) -> Self {
        Refusal::Symbol(fault)
    }
}

impl From<PathFault> for Refusal {
    ghost from_gives = { λ fault refusal. refusal ≡ Path fault };

    fn from(fault: PathFault) -> Self {
        Refusal::Path(fault)
    }
}

impl From<PlanFault> for Refusal {
    ghost from_gives = { λ fault refusal. refusal ≡ Plan fault };

    fn from(fault: PlanFault) -> Self {
        Refusal::Plan(fault)
    }
}
