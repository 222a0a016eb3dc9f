// The line of a refused configuration.
ghost use Rattle.std.specs.Prelude.{◌≡◌, ◌∷◌, [], codes, decimal};
ghost use Rattle.report_text.specs.Line.{line_of};
ghost use Rattle.outside.specs.Sink.{Puts};
ghost use Rattle.report_text.specs.ConfigRefusal.{config_text, fault_text, is_top, place_text, table_text};
ghost use Rattle.ring_config.specs.Reading.{key_text};

use itoa::Buffer;
use outside::{PutFailed, Sink, put_parts};
use ring_config::{ConfigError, KeyAt, KeyName, TableName};

fn table_text(table: TableName) -> &'static str
    ensures { result.now ≡ table_text table }
{
    match table {
        TableName::Top => "top",
        TableName::Phase => "phase",
        TableName::Ped => "ped",
        TableName::Overlap => "overlap",
        TableName::Preempt => "preempt",
        TableName::Conflict => "conflict",
        TableName::Allow => "allow",
        TableName::Floor => "floor",
        TableName::Interval => "interval",
        TableName::Approach => "approach",
    }
}

fn is_top(table: TableName) -> bool
    ensures { result ≡ is_top table }
{
    match table {
        TableName::Top => true,
        TableName::Phase => false,
        TableName::Ped => false,
        TableName::Overlap => false,
        TableName::Preempt => false,
        TableName::Conflict => false,
        TableName::Allow => false,
        TableName::Floor => false,
        TableName::Interval => false,
        TableName::Approach => false,
    }
}

// Writes the place of a key of the file itself.
fn put_top<K: Sink>(key: KeyName, sink: &mut K) -> Result<(), PutFailed>
    ensures { Puts (K.taken sink.old) (K.taken sink.new)
        (line_of (codes "top." ∷ key_text key ∷ [])) result }
{
    put_parts(sink, &[b"top.", key.text().as_bytes(), b"\n"])
}

// Writes the place of a key of an entry of a table.
fn put_entry<K: Sink>(
    table: TableName,
    entry: u32,
    key: KeyName,
    sink: &mut K,
) -> Result<(), PutFailed>
    ensures { Puts (K.taken sink.old) (K.taken sink.new)
        (line_of (table_text table ∷ codes "[" ∷ decimal entry ∷ codes "]." ∷ key_text key ∷ []))
        result }
{
    let mut number = Buffer::new();
    put_parts(
        sink,
        &[
            table_text(table).as_bytes(),
            b"[",
            number.format(entry).as_bytes(),
            b"].",
            key.text().as_bytes(),
            b"\n",
        ],
    )
}

fn put_place<K: Sink>(
    table: TableName,
    entry: u32,
    key: KeyName,
    sink: &mut K,
) -> Result<(), PutFailed>
    ensures { Puts (K.taken sink.old) (K.taken sink.new) (place_text table entry key) result }
{
    if is_top(table) {
        put_top(key, sink)
    } else {
        put_entry(table, entry, key, sink)
    }
}

fn put_fault<K: Sink>(fault: &[u8], at: KeyAt, sink: &mut K) -> Result<(), PutFailed>
    ensures { Puts (K.taken sink.old) (K.taken sink.new) (fault_text fault.now at) result }
{
    put_parts(sink, &[b"config refused: ", fault])?;
    put_place(at.table, at.entry, at.key, sink)
}

/// Writes the line of a refused configuration: what is wrong first, and where.
pub fn put_config_error<K: Sink>(error: ConfigError, sink: &mut K) -> Result<(), PutFailed>
    ensures { Puts (K.taken sink.old) (K.taken sink.new) (config_text error) result }
{
    match error {
        ConfigError::NotToml => sink.put(b"config refused: not toml\n"),
        ConfigError::Missing(at) => put_fault(b"missing ", at, sink),
        ConfigError::BadValue(at) => put_fault(b"bad value ", at, sink),
        ConfigError::Unknown(at) => put_fault(b"unknown ", at, sink),
        ConfigError::Repeated(at) => put_fault(b"repeated ", at, sink),
        ConfigError::TooMany(at) => put_fault(b"too many ", at, sink),
        ConfigError::Memory => Ok(()),
    }
}
