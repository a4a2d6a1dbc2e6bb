// The symbol that stands nearest below an address.
ghost use Rattle.std.specs.Prelude.{◌≡◌, List, Ok, option_map};
ghost use Rattle.kc_syms.specs.Addresses.{at_run};
ghost use Rattle.kc_syms.specs.Rows.{RowText, lines, rows};
ghost use Rattle.kc_sight.specs.Nearest.{below, higher, is_between, names_none, nearest};
ghost use Rattle.kc_sight.specs.Views.{row_view, symbol_view};
ghost use Rattle.kc_sight.specs.Lines.{in_line, in_lines, row_in};

use bstr::ByteSlice;
use kc_word::read_hex;

/// The kernel's image is linked to stand at this address and above.
pub(crate) const IMAGE_START: u64 = 0xffff_ffff_8000_0000;

/// A symbol of a map.
#[derive(Clone, Copy, Debug, PartialEq, Eq)]
pub struct Symbol<'m> {
    /// Its name, a part of the map.
    pub name: &'m [u8],
    /// Its address at run time.
    pub address: u64,
}

// Where a listed address is at run time: KASLR moves the kernel's image.
pub(crate) fn at_run(kaslr: u64, listed: u64) -> u64
    ensures { result ≡ at_run kaslr listed }
{
    if listed >= IMAGE_START {
        listed.wrapping_add(kaslr)
    } else {
        listed
    }
}

// Whether a row names no variable: where the variables of processors begin, at the address of the first of these, or a number of bytes.
fn names_none(name: &[u8]) -> bool
    ensures { result ≡ names_none name.now }
{
    name == b"__per_cpu_start".as_slice() || name == b"kexec_control_code_size".as_slice()
}

// A symbol at an address or above it, where it isn't above another one.
fn below(from: u64, kaslr: u64, address: u64, listed: u64, name: &[u8]) -> Option<Symbol<'_>>
    ensures { option_map symbol_view result ≡ below from kaslr address listed name.now }
{
    let at = at_run(kaslr, listed);
    if at >= from && at <= address && !names_none(name) {
        Some(Symbol { name, address: at })
    } else {
        None
    }
}

// A row of a map: the address that it lists, and its name.
#[derive(Clone, Copy)]
pub(crate) struct Row<'m> {
    pub listed: u64,
    pub name: &'m [u8],
}

// The row of a line that is one: 16 digits, a space, a kind, a space and a name.
pub(crate) fn row_in(line: &[u8]) -> Option<Row<'_>>
    ensures { option_map row_view result ≡ row_in line.now }
{
    if line.len() < 19 {
        return None;
    }
    Some(Row {
        listed: read_hex(&line[..16])?,
        name: &line[19..],
    })
}

// The symbol of a line, where it isn't above an address.
fn in_line(line: &[u8], from: u64, kaslr: u64, address: u64) -> Option<Symbol<'_>>
    ensures { option_map symbol_view result ≡ in_line from kaslr address line.now }
{
    let row = row_in(line)?;
    below(from, kaslr, address, row.listed, row.name)
}

// The one at the higher address, and of two at the same the first.
fn higher<'m>(a: Option<Symbol<'m>>, b: Option<Symbol<'m>>) -> Option<Symbol<'m>>
    ensures { option_map symbol_view result ≡ higher (option_map symbol_view a.entry) (option_map symbol_view b.entry) }
{
    match (a, b) {
        (Some(a), Some(b)) if a.address < b.address => Some(b),
        (Some(a), _) => Some(a),
        (None, b) => b,
    }
}

/// The symbol that stands nearest below an address, or at it, of those from another address on, where KASLR moved the image by `kaslr`
/// bytes; of several at one address the first row's. `__per_cpu_start` and `kexec_control_code_size` name no variable, and are passed over. `map` is a System.map
/// that `kc_syms::Symbols` reads. It takes no memory.
pub fn nearest(map: &[u8], from: u64, kaslr: u64, address: u64) -> Option<Symbol<'_>>
    ensures lines { option_map symbol_view result ≡ in_lines from kaslr address (lines map.now) }
    ensures rows { (listed : List RowText) → rows map.now ≡ Ok listed → option_map symbol_view result ≡ nearest from kaslr address listed }
{
    let mut found = None;
    for line in map.lines() {
        found = higher(found, in_line(line, from, kaslr, address));
    }
    found
}

// Whether an address isn't below one and is below another one, where both are known.
fn is_between(start: Option<u64>, end: Option<u64>, address: u64) -> bool
    ensures { result ≡ is_between start end address }
{
    match (start, end) {
        (Some(start), Some(end)) => address >= start && address < end,
        _ => false,
    }
}

/// Where parts of the kernel's image begin and end at run time: the addresses of symbols, `None` where a map has none of them, or several.
#[derive(Clone, Copy, Debug, PartialEq, Eq)]
pub struct ImageParts {
    /// Where its text ends and its data begins, `_etext`; where there is none, no address is in its data.
    pub text_end: Option<u64>,
    /// The address behind the image, `_end`; where there is none, no address is in the image.
    pub end: Option<u64>,
    /// Where the memory begins that the kernel frees when it has started, `__init_begin`.
    pub init_start: Option<u64>,
    /// The address behind that memory, `__init_end`; where it or `__init_begin` isn't there, nothing counts as freed.
    pub init_end: Option<u64>,
}

impl ImageParts {
    ghost use Rattle.kc_sight.specs.Nearest.{in_image, is_kept};
    ghost use Rattle.kc_sight.specs.Holders.{in_data};

    /// Whether an address is in the image.
    pub fn hold(&self, address: u64) -> bool
        ensures { result ≡ in_image self.now.end address }
    {
        match self.end {
            Some(end) => address >= IMAGE_START && address < end,
            None => false,
        }
    }

    // Whether an address is in the image, and isn't freed.
    fn keep(&self, address: u64) -> bool
        ensures { result ≡ is_kept self.now address }
    {
        self.hold(address) && !is_between(self.init_start, self.init_end, address)
    }

    // Whether an address is in the image's data, and isn't freed.
    pub(crate) fn have_data(&self, address: u64) -> bool
        ensures { result ≡ in_data self.now address }
    {
        is_between(self.text_end, self.end, address) && self.keep(address)
    }
}

/// A System.map that `kc_syms::Symbols` reads, with what is asked of it: the symbols of the kernel's image.
#[derive(Clone, Copy)]
pub struct ImageMap<'m> {
    /// Its bytes.
    pub map: &'m [u8],
    /// How far KASLR moved the image, in bytes.
    pub kaslr: u64,
    /// Where the image's parts begin and end.
    pub parts: ImageParts,
}

impl<'m> ImageMap<'m> {
    ghost use Rattle.kc_sight.specs.Views.{image_symbols, symbols_from};

    /// The symbol that stands nearest below an address of the image, or at it. `None` for other addresses, and for those in memory that the
    /// kernel frees when it has started.
    pub fn symbol(&self, address: u64) -> Option<Symbol<'m>>
        ensures { option_map symbol_view result ≡ image_symbols self.now address }
    {
        if self.parts.keep(address) {
            nearest(self.map, IMAGE_START, self.kaslr, address)
        } else {
            None
        }
    }
    /// The symbol that stands nearest below an address, or at it, of those from another one on, in the image or not.
    pub fn symbol_from(&self, from: u64, address: u64) -> Option<Symbol<'m>>
        ensures { option_map symbol_view result ≡ symbols_from self.now from address }
    {
        nearest(self.map, from, self.kaslr, address)
    }
}
