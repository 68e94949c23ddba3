//! How long commits wait until they are acknowledged.
use std::alloc::{AllocError, Global};
use std::sync::atomic::{AtomicU64, Ordering};
use std::time::Duration;
use tables::Reply;

/// The longest wait that is told from longer ones, in milliseconds.
const LONGEST: u64 = 10_000;

/// What the terminals of a run tell of the commits that they have acknowledged: how many there are of each kind of
/// transaction, and how long each has waited, to the millisecond. Threads share it.
#[derive(Drop)]
pub struct Waits {
    new_orders: AtomicU64,
    payments: AtomicU64,
    order_statuses: AtomicU64,
    deliveries: AtomicU64,
    stock_levels: AtomicU64,
    /// How many have waited so many whole milliseconds; the last counts all that have waited longer, too.
    by_millis: Vec<AtomicU64>,
    /// The microseconds that all of them have waited together.
    micros: AtomicU64,
}

impl Waits {
    /// Of a run that begins.
    pub fn new(alloc: Global) -> Result<Waits, AllocError> {
        let mut by_millis = Vec::new(alloc);
        for _ in 0..=LONGEST {
            by_millis.push(AtomicU64::new(0))?;
        }
        Ok(Waits {
            new_orders: AtomicU64::new(0),
            payments: AtomicU64::new(0),
            order_statuses: AtomicU64::new(0),
            deliveries: AtomicU64::new(0),
            stock_levels: AtomicU64::new(0),
            by_millis,
            micros: AtomicU64::new(0),
        })
    }

    /// A commit with this reply was acknowledged.
    pub(crate) fn count(&self, reply: &Reply) {
        let kind = match reply {
            Reply::NewOrder(_) => &self.new_orders,
            Reply::Payment(_) => &self.payments,
            Reply::OrderStatus(_) => &self.order_statuses,
            Reply::Delivery(_) => &self.deliveries,
            Reply::StockLevel(_) => &self.stock_levels,
        };
        kind.fetch_add(1, Ordering::SeqCst);
    }

    /// And it had waited so long.
    pub(crate) fn note(&self, wait: Duration) {
        let millis = u64::try_from(wait.as_millis()).unwrap_or(LONGEST);
        if let Some(waits) = self.by_millis.get(millis.min(LONGEST) as usize) {
            waits.fetch_add(1, Ordering::SeqCst);
        }
        let micros = u64::try_from(wait.as_micros()).unwrap_or(u64::MAX);
        self.micros.fetch_add(micros, Ordering::SeqCst);
    }

    /// How many waits were noted.
    fn noted(&self) -> u64 {
        let mut all: u64 = 0;
        for waits in &self.by_millis {
            all = all.saturating_add(waits.load(Ordering::SeqCst));
        }
        all
    }

    /// The mean of so many waits, in milliseconds.
    fn mean(&self, noted: u64) -> u64 {
        self.micros.load(Ordering::SeqCst) / noted.max(1) / 1000
    }

    /// In how many milliseconds at least so many waits were over.
    fn within(&self, least: u64) -> u64 {
        let mut over: u64 = 0;
        for millis in 0..LONGEST {
            if let Some(waits) = self.by_millis.get(millis as usize) {
                over = over.saturating_add(waits.load(Ordering::SeqCst));
            }
            if over >= least {
                return millis + 1;
            }
        }
        LONGEST
    }

    /// What is told of them: how long commits waited, and how many there are of each kind.
    pub(crate) fn text(&self, alloc: Global) -> Result<String, AllocError> {
        let noted = self.noted();
        let mean = self.mean(noted);
        let (half, most) = (
            self.within(noted - noted / 2),
            self.within(noted - noted / 100),
        );
        let mut text = format!(in alloc;
            "acknowledged after {mean} ms, half within {half} ms, 99 of 100 within {most} ms; "
        )?;
        self.print_kinds(&mut text)?;
        Ok(text)
    }

    /// Appends how many there are of each kind.
    fn print_kinds(&self, out: &mut String) -> Result<(), AllocError> {
        let new_orders = self.new_orders.load(Ordering::SeqCst);
        let payments = self.payments.load(Ordering::SeqCst);
        let order_statuses = self.order_statuses.load(Ordering::SeqCst);
        let deliveries = self.deliveries.load(Ordering::SeqCst);
        let stock_levels = self.stock_levels.load(Ordering::SeqCst);
        write!(out, "New-Order {new_orders}, Payment {payments}, ")?;
        write!(
            out,
            "Order-Status {order_statuses}, Delivery {deliveries}, "
        )?;
        write!(out, "Stock-Level {stock_levels}")
    }
}
