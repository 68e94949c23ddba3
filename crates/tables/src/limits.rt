//! The limits of this engine, each with its one name, for code and for definitions. Amounts are in cents.

/// The most warehouses.
pub const MAX_WAREHOUSES: u32 = 8;

/// The most districts of a warehouse.
pub const MAX_DISTRICTS: u32 = 10;

/// The fewest customers of a district.
pub const MIN_CUSTOMERS: u32 = 10;

/// The most customers of a district.
pub const MAX_CUSTOMERS: u32 = 3_000;

/// The fewest items.
pub const MIN_ITEMS: u32 = 20;

/// The most items.
pub const MAX_ITEMS: u32 = 100_000;

/// The largest order cap of a district.
pub const MAX_ORDERS: u32 = 100_000;

/// The largest commit cap.
pub const MAX_COMMITS: u32 = 600_000;

/// The most terminals of an engine.
pub const MAX_TERMINALS: u16 = 16;

/// The most loggers of an engine, and so log files of a database.
pub const MAX_LOGGERS: u16 = 8;

/// The most records that a transaction reads.
pub const MAX_READS: usize = 1_024;

/// The most records that a transaction writes, its HISTORY row not counted.
pub const MAX_WRITES: usize = 200;

/// The last epoch: the number of one has 32 bits (Silo, section 4.2).
pub const LAST_EPOCH: u64 = 4_294_967_295;

/// The largest mark of a log file: at least one epoch is behind it.
pub const MAX_MARK: u64 = LAST_EPOCH - 1;

/// The last date. The first is 1.
pub const MAX_DATE: u32 = 4_000_000_000;

/// The smallest H_AMOUNT (TPC-C 2.5.1.3).
pub const MIN_PAYMENT: i64 = 100;

/// The largest H_AMOUNT (TPC-C 2.5.1.3).
pub const MAX_PAYMENT: i64 = 500_000;

/// The fewest lines of an order (TPC-C 2.4.1.3).
pub const MIN_ORDER_LINES: u32 = 5;

/// The most lines of an order (TPC-C 2.4.1.3).
pub const MAX_ORDER_LINES: u32 = 15;

/// The most records of a table: those of ORDER-LINE, at the largest scale.
pub const MAX_TABLE_RECORDS: u32 = MAX_WAREHOUSES * MAX_DISTRICTS * MAX_ORDERS * MAX_ORDER_LINES;

/// The largest item number that a terminal may send, at any scale. The largest item of any scale is less: the number
/// past the last item is how a terminal asks for an order that is rolled back (TPC-C 2.4.1.5).
pub const MAX_REQUESTED_ITEM: u32 = 100_001;

/// The largest I_PRICE. The smallest is 0.
pub const MAX_PRICE: i64 = 10_000;

/// The largest OL_QUANTITY (TPC-C 2.4.1.5). The smallest is 1.
pub const MAX_QUANTITY: u32 = 10;

/// The largest OL_AMOUNT. The smallest is 0.
pub const MAX_LINE_AMOUNT: i64 = 999_999;

/// How many last names there are (TPC-C 4.3.2.3). A last name is a number below this.
pub const LAST_NAMES: u32 = 1_000;

/// The largest O_CARRIER_ID (TPC-C 2.7.1.2). The smallest is 1.
pub const MAX_CARRIER: u32 = 10;

/// How many of a district's orders a Stock-Level looks at (TPC-C 2.8.2.2).
pub const RECENT_ORDERS: u32 = 20;

/// The smallest threshold of a Stock-Level (TPC-C 2.8.1.2).
pub const MIN_THRESHOLD: u32 = 10;

/// The largest threshold of a Stock-Level (TPC-C 2.8.1.2).
pub const MAX_THRESHOLD: u32 = 20;

/// The smallest S_QUANTITY.
pub const MIN_STOCK: u32 = 10;

/// The largest S_QUANTITY.
pub const MAX_STOCK: u32 = 100;

/// What S_QUANTITY rises by where a line would leave less than `MIN_STOCK` (TPC-C 2.4.2.2).
pub const RESTOCK: u32 = 91;

/// The largest count, as C_PAYMENT_CNT or S_ORDER_CNT.
pub const MAX_COUNT: u32 = 1_000_000_000;

/// By how much one commit moves a money column at most.
pub const MAX_MONEY_STEP: u32 = 15_000_000;

/// By how much one commit raises a count at most.
pub const MAX_COUNT_STEP: u32 = 150;

/// By how much a money column of a first population is away from zero at most: W_YTD of 10 districts, of which each has
/// 3,000 customers who have paid 10.00.
pub const MAX_FIRST_MONEY: u32 = 30_000_000;

/// The largest count of a first population: C_PAYMENT_CNT is 1.
pub const MAX_FIRST_COUNT: u32 = 1;
