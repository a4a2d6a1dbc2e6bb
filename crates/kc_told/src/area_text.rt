// What is printed of the areas in which an address lies.
ghost use Rattle.std.specs.Prelude.{◌≡◌, ◌++◌, option_map, OnOk};
ghost use Rattle.kc_sight.specs.Views.{symbol_view, symbols_from};
ghost use Rattle.kc_told.specs.AreaText.{area_lines, module_line, processor_line, stack_line, variable_text};

use crate::module_symbol::push_module_symbol;
use crate::object_text::push_unknown;
use crate::text::push_symbol;
use kc_found::Found;
use kc_module_symbols::ModuleSymbol;
use kc_owner::{Areas, InModule, InProcessor, InStack};
use kc_sight::{ImageMap, Symbol};
use kc_text::{push, push_name, push_numbered};
use kc_word::NoMemory;

// The line of a module.
fn push_module(text: &mut Vec<u8>, found: &Result<Option<InModule>, Found>) -> Result<(), NoMemory>
    ensures { OnOk result (text.new.items ≡ text.old.items ++ module_line found.now) }
{
    match found {
        Ok(None) => Ok(()),
        Ok(Some(owner)) => {
            push(text, b"module ")?;
            push_name(text, owner.name.as_slice())?;
            push_numbered(text, b"+", owner.byte)?;
            push(text, b"\n")
        }
        Err(found) => {
            push(text, b"module")?;
            push_unknown(text, found)
        }
    }
}

// What a processor's area has a copy of.
fn push_variable(
    text: &mut Vec<u8>,
    symbol: Option<Symbol<'_>>,
    variable: u64,
) -> Result<(), NoMemory>
    ensures { OnOk result (text.new.items ≡ text.old.items ++ variable_text (option_map symbol_view symbol.entry) variable) }
{
    let Some(symbol) = symbol else {
        return Ok(());
    };
    push(text, b" ")?;
    push_symbol(text, symbol, variable)
}

// The line of a processor.
fn push_processor(
    text: &mut Vec<u8>,
    image: &ImageMap<'_>,
    processor: &Result<Option<InProcessor>, Found>,
) -> Result<(), NoMemory>
    ensures { OnOk result (text.new.items ≡ text.old.items ++ processor_line (symbols_from image.now) processor.now) }
{
    match processor {
        Ok(None) => Ok(()),
        Ok(Some(processor)) => {
            push_numbered(text, b"percpu ", processor.number)?;
            let symbol = image.symbol_from(processor.start, processor.variable);
            push_variable(text, symbol, processor.variable)?;
            push(text, b"\n")
        }
        Err(found) => {
            push(text, b"percpu")?;
            push_unknown(text, found)
        }
    }
}

// The line of a task.
fn push_stack(text: &mut Vec<u8>, stack: &Result<Option<InStack>, Found>) -> Result<(), NoMemory>
    ensures { OnOk result (text.new.items ≡ text.old.items ++ stack_line stack.now) }
{
    match stack {
        Ok(None) => Ok(()),
        Ok(Some(stack)) => {
            push_numbered(text, b"stack ", stack.pid)?;
            push(text, b" ")?;
            push_name(text, stack.comm.as_slice())?;
            push_numbered(text, b"+", stack.byte)?;
            push(text, b"\n")
        }
        Err(found) => {
            push(text, b"stack")?;
            push_unknown(text, found)
        }
    }
}

/// Adds the lines of the areas in which an address lies, with the symbol of its module.
pub fn push_areas(
    text: &mut Vec<u8>,
    image: &ImageMap<'_>,
    areas: &Areas,
    symbol: &Option<ModuleSymbol>,
) -> Result<(), NoMemory>
    ensures { OnOk result (text.new.items ≡ text.old.items ++ area_lines (symbols_from image.now) areas.now symbol.now) }
{
    push_module(text, &areas.module_found)?;
    push_module_symbol(text, &areas.module_found, symbol)?;
    push_processor(text, image, &areas.processor_found)?;
    push_stack(text, &areas.stack_found)
}
