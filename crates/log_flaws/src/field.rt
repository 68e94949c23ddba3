//! The fields of a log file's header.
ghost use Rattle.std.specs.Prelude.{◌≡◌, find};
ghost use Rattle.log_flaws.specs.Fields.{differs};

use log_header::Header;

/// A field of a log file's header.
#[derive(Clone, Copy, Debug, PartialEq, Eq)]
pub enum HeaderField {
    /// The version of the format.
    Version,
    /// The number of the file's logger, from 0.
    Logger,
    /// How many loggers there are.
    Loggers,
    Warehouses,
    Districts,
    Customers,
    Items,
    /// The order cap.
    Orders,
    /// The commit cap.
    Commits,
    /// The seed of the population, 0 for the plain one.
    Population,
}

/// All fields, in the order in which they stand in a header.
const FIELDS: [HeaderField; 10] = [
    HeaderField::Version,
    HeaderField::Logger,
    HeaderField::Loggers,
    HeaderField::Warehouses,
    HeaderField::Districts,
    HeaderField::Customers,
    HeaderField::Items,
    HeaderField::Orders,
    HeaderField::Commits,
    HeaderField::Population,
];

impl HeaderField {
    ghost use Rattle.std.specs.Prelude.{◌≡◌};
    ghost use Rattle.log_flaws.specs.Fields.{field_name, number_in};

    /// The number that a header has in this field.
    pub fn of(self, header: &Header) -> u64
        ensures { result ≡ number_in self header.now }
    {
        match self {
            HeaderField::Version => u64::from(header.version),
            HeaderField::Logger => u64::from(header.logger),
            HeaderField::Loggers => u64::from(header.loggers),
            HeaderField::Warehouses => u64::from(header.scale.warehouses()),
            HeaderField::Districts => u64::from(header.scale.districts()),
            HeaderField::Customers => u64::from(header.scale.customers()),
            HeaderField::Items => u64::from(header.scale.items()),
            HeaderField::Orders => u64::from(header.scale.orders()),
            HeaderField::Commits => u64::from(header.scale.commits()),
            HeaderField::Population => header.seed,
        }
    }

    /// What a command line calls it: an option, but for the version and the number of a logger.
    pub fn name(self) -> &'static str
        ensures { result.now ≡ field_name self }
    {
        match self {
            HeaderField::Version => "version",
            HeaderField::Logger => "logger",
            HeaderField::Loggers => "--loggers",
            HeaderField::Warehouses => "--warehouses",
            HeaderField::Districts => "--districts",
            HeaderField::Customers => "--customers",
            HeaderField::Items => "--items",
            HeaderField::Orders => "--orders",
            HeaderField::Commits => "--commits",
            HeaderField::Population => "--population",
        }
    }
}

/// The first field in which two headers differ, in their order.
pub(crate) fn first_difference(header: &Header, asked: &Header) -> Option<HeaderField>
    ensures { result ≡ find (differs header.now asked.now) FIELDS }
{
    first_among(&FIELDS, header, asked)
}

/// The first of these fields in which two headers differ.
fn first_among(fields: &[HeaderField], header: &Header, asked: &Header) -> Option<HeaderField>
    ensures { result ≡ find (differs header.now asked.now) fields.now }
{
    match fields {
        [] => None,
        [field, others @ ..] => {
            if field.of(header) != field.of(asked) {
                return Some(*field);
            }
            first_among(others, header, asked)
        }
    }
}
