//! Where columns stand in the words of a record, and of a HISTORY row in a log file: for code that takes one column and
//! no row, as the running totals and the report do. Each is called as in TPC-C (1.3).

ghost use Rattle.std.specs.Prelude.{◌≡◌, slice_index};
ghost use Rattle.std.specs.Option.{unwrap_or};
ghost use Rattle.tables.specs.Rows.{money_word, order_words, line_words};
ghost use Rattle.tables.specs.declared.rows.Order.{Order};
ghost use Rattle.tables.specs.declared.rows.OrderLine.{OrderLine};
ghost use Rattle.rows.specs.Columns.{warehouse_columns_words, district_columns_words, customer_columns_words};
ghost use Rattle.rows.specs.Columns.{words_of_oldest, words_of_last};
ghost use Rattle.rows.specs.declared.columns.WarehouseColumns.{WarehouseColumns};
ghost use Rattle.rows.specs.declared.columns.DistrictColumns.{DistrictColumns};
ghost use Rattle.rows.specs.declared.columns.CustomerColumns.{CustomerColumns};
ghost use Rattle.rows.specs.declared.index.Oldest.{Oldest};
ghost use Rattle.rows.specs.declared.index.Last.{Last};
ghost use Rattle.rows.specs.declared.column.TheConstants.{W_YTD, D_YTD, D_NEXT_O_ID, C_BALANCE, C_YTD_PAYMENT};
ghost use Rattle.rows.specs.declared.column.TheConstants.{O_C_ID, O_CARRIER_ID, O_OL_CNT, OL_DELIVERY_D, OL_AMOUNT};
ghost use Rattle.rows.specs.declared.column.TheConstants.{NUMBER};

/// Money, of WAREHOUSE.
pub const W_YTD: usize = 0;

/// Money, of DISTRICT.
pub const D_YTD: usize = 0;

/// A number, of DISTRICT.
pub const D_NEXT_O_ID: usize = 1;

/// Money, of CUSTOMER.
pub const C_BALANCE: usize = 0;

/// Money, of CUSTOMER.
pub const C_YTD_PAYMENT: usize = 1;

/// A number, of HISTORY.
pub const H_C_ID: usize = 0;

/// A number, of HISTORY.
pub const H_C_D_ID: usize = 1;

/// A number, of HISTORY.
pub const H_C_W_ID: usize = 2;

/// A number, of HISTORY.
pub const H_D_ID: usize = 3;

/// A number, of HISTORY.
pub const H_W_ID: usize = 4;

/// A date, of HISTORY.
pub const H_DATE: usize = 5;

/// Money, of HISTORY.
pub const H_AMOUNT: usize = 6;

/// A number, of ORDER.
pub const O_C_ID: usize = 0;

/// A number of ORDER, or 0 where it is null.
pub const O_CARRIER_ID: usize = 2;

/// A number, of ORDER.
pub const O_OL_CNT: usize = 3;

/// A date of ORDER-LINE, or 0 where it is null.
pub const OL_DELIVERY_D: usize = 2;

/// Money, of ORDER-LINE.
pub const OL_AMOUNT: usize = 4;

/// The order's number, of OLDEST and of LAST.
pub const NUMBER: usize = 0;

/// Each of these stands there in the words of its row: a law. Does nothing.
pub fn columns_stand_there()
    ensures warehouse { (r : WarehouseColumns)
        → slice_index (warehouse_columns_words r) W_YTD ≡ money_word r.year_to_date }
    ensures district { (r : DistrictColumns)
        → (slice_index (district_columns_words r) D_YTD ≡ money_word r.year_to_date)
        × (slice_index (district_columns_words r) D_NEXT_O_ID ≡ r.next_order) }
    ensures customer { (r : CustomerColumns)
        → (slice_index (customer_columns_words r) C_BALANCE ≡ money_word r.balance)
        × (slice_index (customer_columns_words r) C_YTD_PAYMENT ≡ money_word r.paid) }
    ensures order { (r : Order)
        → (slice_index (order_words r) O_C_ID ≡ r.customer)
        × (slice_index (order_words r) O_CARRIER_ID ≡ unwrap_or r.carrier 0)
        × (slice_index (order_words r) O_OL_CNT ≡ r.line_count) }
    ensures line { (r : OrderLine)
        → (slice_index (line_words r) OL_DELIVERY_D ≡ unwrap_or r.delivery_date 0)
        × (slice_index (line_words r) OL_AMOUNT ≡ money_word r.amount) }
    ensures oldest { (r : Oldest) → slice_index (words_of_oldest r) NUMBER ≡ r.order }
    ensures last { (r : Last) → slice_index (words_of_last r) NUMBER ≡ r.order }
{}
