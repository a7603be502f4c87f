// Media types: RFC 2616 3.7, with the parameters of 3.6.
#![tactic(auto)]

ghost use Rattle.std.specs.Prelude.{◌≡◌, [], ◌≤◌, ◌<◌, ◌+◌, length};
ghost use Rattle.std.specs.List.{list_any};
ghost use Rattle.octets.specs.Case.{alike};
ghost use Rattle.media.specs.Grammar.{part_at};
ghost use Rattle.media.specs.Reading.{Answered, read_already};
ghost use Rattle.media.specs.helpers.Scan.{TypeAt, NamesRead, QuoteAt, Found, NameAt, StepAt, ValueAt};

use octets::Refusal;

// How many parameters there may be.
pub const PARAMETER_LIMIT: usize = 16;

// Start and length of an attribute and of its value, a quoted value's without its quotes.
#[derive(Clone, Copy, Debug, PartialEq, Eq)]
pub struct Parameter {
    pub start: usize,
    pub length: usize,
    pub value_start: usize,
    pub value_length: usize,
    pub quoted: bool,
}

// As many entries as there may be parameters; the unused ones are zero.
pub type Table = [Parameter; PARAMETER_LIMIT];

// Start and length of type and subtype, and how many parameters there are.
#[derive(Clone, Copy, Debug, PartialEq, Eq)]
pub struct MediaType {
    pub type_start: usize,
    pub type_length: usize,
    pub subtype_start: usize,
    pub subtype_length: usize,
    pub count: usize,
}

// A media type that was read: its names, and the table of its parameters.
#[derive(Clone, Copy)]
pub struct Media {
    pub names: MediaType,
    pub parameters: Table,
}

impl Media {
    // The parameters that were read, without the unused entries.
    pub fn used(&self) -> &[Parameter]
        ensures { result.now ≡ read_already self.now }
    {
        self.parameters
            .get(..self.names.count)
            .unwrap_or(&self.parameters)
    }
}

const UNUSED: Parameter = Parameter {
    start: 0,
    length: 0,
    value_start: 0,
    value_length: 0,
    quoted: false,
};

// type `/` subtype, then parameters with blanks around their semicolons.
pub fn read(s: &[u8]) -> Result<Media, Refusal>
    ensures { Answered s.now result }
{
    let names = read_names(s)?;
    // without parameters no table is filled and moved: such a type is read in 0.8 of the time
    if s.len() <= names.subtype_start + names.subtype_length {
        return Ok(Media {
            names,
            parameters: [UNUSED; PARAMETER_LIMIT],
        });
    }
    read_parameters(s, names)
}

// The bytes of a part, as far as the text has them.
pub fn part(s: &[u8], start: usize, length: usize) -> &[u8]
    ensures { result.now ≡ part_at s.now start length }
{
    let rest = s.get(start..).unwrap_or(&[]);
    rest.get(..length).unwrap_or(rest)
}

// Reads type `/` subtype.
fn read_names(s: &[u8]) -> Result<MediaType, Refusal>
    ensures { NamesRead s.now result }
{
    octets::check_length(s)?;
    let slash = scans::class_end(octets::TOKEN, s, 0);
    if slash == 0 {
        return Err(Refusal::Malformed(0));
    }
    read_subtype(s, slash)
}

// Reads on from `slash`, where the type ends.
fn read_subtype(s: &[u8], slash: usize) -> Result<MediaType, Refusal>
    requires { TypeAt s.now slash }
    ensures { NamesRead s.now result }
{
    if slash >= s.len() || s[slash] != b'/' {
        return Err(Refusal::Malformed(slash));
    }
    let start = slash + 1;
    let end = scans::class_end(octets::TOKEN, s, start);
    if end == start {
        return Err(Refusal::Malformed(end));
    }
    Ok(MediaType {
        type_start: 0,
        type_length: slash,
        subtype_start: start,
        subtype_length: end - start,
        count: 0,
    })
}

// Reads on from the place behind the subtype.
fn read_parameters(s: &[u8], names: MediaType) -> Result<Media, Refusal>
    requires { Found s.now names [] (names.subtype_start + names.subtype_length) }
    ensures { Answered s.now result }
{
    let mut media = Media {
        names,
        parameters: [UNUSED; PARAMETER_LIMIT],
    };
    let mut at = names.subtype_start + names.subtype_length;
    while at < s.len() {
        let (parameter, end) = read_parameter(s, &media, at)?;
        media.parameters[media.names.count] = parameter;
        media.names.count += 1;
        at = end;
    }
    Ok(media)
}

// Reads the parameter that stands at `at`, behind those that were found; gives the place behind it.
fn read_parameter(s: &[u8], found: &Media, at: usize) -> Result<(Parameter, usize), Refusal>
    requires found { Found s.now found.now.names (read_already found.now) at }
    requires at_in_bounds { at < length s.now }
    ensures { StepAt s.now found.now.names (read_already found.now) at result }
{
    let semicolon = scans::class_end(octets::BLANK, s, at);
    if semicolon >= s.len() || s[semicolon] != b';' {
        return Err(Refusal::Malformed(semicolon));
    }
    let start = scans::class_end(octets::BLANK, s, semicolon + 1);
    read_attribute(s, found, start)
}

// Reads on from the place where its attribute has to begin.
fn read_attribute(s: &[u8], found: &Media, start: usize) -> Result<(Parameter, usize), Refusal>
    requires { NameAt s.now found.now.names (read_already found.now) start }
    ensures { StepAt s.now found.now.names (read_already found.now) start result }
{
    let count = found.names.count;
    let equals = scans::token_end(s, start);
    if equals == start {
        return Err(Refusal::Malformed(start));
    }
    if count == PARAMETER_LIMIT {
        return Err(Refusal::TooManyParameters(start));
    }
    if equals >= s.len() || s[equals] != b'=' {
        return Err(Refusal::Malformed(equals));
    }
    if is_among(s, &s[start..equals], found.used()) {
        return Err(Refusal::RepeatedAttribute(equals));
    }
    read_value(s, start, equals)
}

// Is the name that of one of the attributes, letter case ignored?
fn is_among(s: &[u8], name: &[u8], parameters: &[Parameter]) -> bool
    ensures { result ≡ list_any (λ p. alike name.now (part_at s.now p.start p.length)) parameters.now }
{
    parameters.iter().any(|p| octets::same_ignoring_case(name, part(s, p.start, p.length)))
}

// Reads the value behind the `=` of the attribute that stands from `start` to `equals`.
fn read_value(s: &[u8], start: usize, equals: usize) -> Result<(Parameter, usize), Refusal>
    requires start_le_equals { start ≤ equals }
    requires equals_in_bounds { equals < length s.now }
    ensures { ValueAt s.now start equals result }
{
    let from = equals + 1;
    if from >= s.len() {
        return Err(Refusal::Malformed(from));
    }
    if s[from] == b'"' {
        return read_quoted(s, start, equals);
    }
    let end = scans::class_end(octets::TOKEN, s, from);
    if end == from {
        return Err(Refusal::Malformed(from));
    }
    let parameter = Parameter {
        start,
        length: equals - start,
        value_start: from,
        value_length: end - from,
        quoted: false,
    };
    Ok((parameter, end))
}

// The same where a quote stands behind the `=`.
fn read_quoted(s: &[u8], start: usize, equals: usize) -> Result<(Parameter, usize), Refusal>
    requires start_le_equals { start ≤ equals }
    requires quote_at { QuoteAt s.now (equals + 1) }
    ensures { ValueAt s.now start equals result }
{
    let from = equals + 2;
    let end = scans::quoted_end(s, from);
    if end >= s.len() || s[end] != b'"' {
        return Err(Refusal::Malformed(end));
    }
    let parameter = Parameter {
        start,
        length: equals - start,
        value_start: from,
        value_length: end - from,
        quoted: true,
    };
    Ok((parameter, end + 1))
}
