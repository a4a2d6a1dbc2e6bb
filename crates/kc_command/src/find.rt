// What is looked up in the types and the symbols.
ghost use Rattle.std.specs.Prelude.{◌≡◌, ◌≤◌, length, None, IfOk};
ghost use Rattle.kc_layout.specs.Views.{number_view};
ghost use Rattle.kc_syms.specs.Symbols.{symbol};
ghost use Rattle.kc_command.specs.Inputs.{number_at, symbol_at, type_named};
ghost use Rattle.kc_command.specs.Made.{Tells};
ghost use Rattle.kc_command.specs.Slots.{IsAbout};

use crate::refusal::Refusal;
use kc_btf::Btf;
use kc_layout::{Field, find_type, resolve};
use kc_syms::Symbols;

/// The virtual address of a symbol, where KASLR moved the kernel's image by `kaslr` bytes.
///
/// # Errors
///
/// No row has the name, or its rows have different addresses.
pub fn find_symbol(symbols: &Symbols<'_>, name: &[u8], kaslr: u64) -> Result<u64, Refusal>
    ensures made { Tells (λ at. at) (symbol_at kaslr (symbol symbols.now name.now)) result }
    ensures refused { IsAbout None result }
{
    Ok(symbols.address(name, kaslr)?)
}

/// The struct or union of a name.
///
/// # Errors
///
/// No struct or union has the name.
pub fn find_named(types: &Btf, name: &[u8]) -> Result<u32, Refusal>
    ensures made { Tells (λ id. id) (type_named types.now name.now) result }
    ensures refused { IsAbout None result }
    ensures there { IfOk result (λ id. id ≤ length types.now.records) }
{
    find_type(types, name).ok_or(Refusal::NoType)
}

/// The number that a path leads to, from the type with this number.
///
/// # Errors
///
/// The path leads nowhere.
pub fn find_field(types: &Btf, id: u32, path: &[u8]) -> Result<Field, Refusal>
    requires { id ≤ length types.now.records }
    ensures made { Tells number_view (number_at types.now id path.now) result }
    ensures refused { IsAbout None result }
    ensures there { IfOk result (λ field. field.ty ≤ length types.now.records) }
{
    Ok(resolve(types, id, path)?)
}
