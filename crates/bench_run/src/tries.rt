//! How often transactions are tried, by kind.

use book::Done;
use std::alloc::{AllocError, Global};
use std::collections::VecDeque;
use std::sync::atomic::{AtomicU64, Ordering};
use tables::Reply;
use terminals::{Calls, Gate};

/// Commits of one kind of transaction, and how often their inputs were tried.
#[derive(Drop)]
struct Kind {
    commits: AtomicU64,
    tries: AtomicU64,
}

impl Kind {
    fn new() -> Kind {
        Kind {
            commits: AtomicU64::new(0),
            tries: AtomicU64::new(0),
        }
    }

    /// A commit more, at the last of so many tries.
    fn add(&self, tries: u64) {
        self.commits.fetch_add(1, Ordering::SeqCst);
        self.tries.fetch_add(tries, Ordering::SeqCst);
    }

    /// Tries a commit in hundredths, on average.
    fn hundredths(&self) -> u64 {
        let tries = self.tries.load(Ordering::SeqCst);
        tries.saturating_mul(100) / self.commits.load(Ordering::SeqCst).max(1)
    }
}

/// The tries of a run's commits that were acknowledged, by kind. Threads share it.
#[derive(Drop)]
pub(crate) struct Tries {
    new_orders: Kind,
    payments: Kind,
    order_statuses: Kind,
    deliveries: Kind,
    stock_levels: Kind,
}

impl Tries {
    pub(crate) fn new() -> Tries {
        Tries {
            new_orders: Kind::new(),
            payments: Kind::new(),
            order_statuses: Kind::new(),
            deliveries: Kind::new(),
            stock_levels: Kind::new(),
        }
    }

    fn of(&self, reply: &Reply) -> &Kind {
        match reply {
            Reply::NewOrder(_) => &self.new_orders,
            Reply::Payment(_) => &self.payments,
            Reply::OrderStatus(_) => &self.order_statuses,
            Reply::Delivery(_) => &self.deliveries,
            Reply::StockLevel(_) => &self.stock_levels,
        }
    }

    /// Tries a commit of each kind, on average.
    pub(crate) fn text(&self, alloc: Global) -> Result<String, AllocError> {
        let mut text = String::new(alloc);
        print(&mut text, "New-Order", &self.new_orders)?;
        print(&mut text, "Payment", &self.payments)?;
        print(&mut text, "Order-Status", &self.order_statuses)?;
        print(&mut text, "Delivery", &self.deliveries)?;
        print(&mut text, "Stock-Level", &self.stock_levels)?;
        Ok(text)
    }
}

fn print(text: &mut String, name: &str, kind: &Kind) -> Result<(), AllocError> {
    let hundredths = kind.hundredths();
    write!(text, " {name} {}.{:02}", hundredths / 100, hundredths % 100)
}

/// A terminal's gate, which holds nobody and counts the tries of each commit. Those of an input that was refused count
/// with the terminal's next commit; where there was no memory to note a commit, no later one is counted.
#[derive(Drop)]
pub(crate) struct Counter<'a> {
    calls: Calls,
    tries: &'a Tries,
    /// Those since the last commit.
    current: u64,
    /// Those of the commits whose replies wait, in order; nothing, once one couldn't be noted.
    waiting: Option<VecDeque<u64>>,
}

impl<'a> Counter<'a> {
    pub(crate) fn new(alloc: Global, tries: &'a Tries) -> Counter<'a> {
        Counter {
            calls: Calls::default(),
            tries,
            current: 0,
            waiting: Some(VecDeque::new(alloc)),
        }
    }
}

impl<'a> Gate for Counter<'a> {
    ghost calls = { λ counter. counter.calls };

    fn before_execute(&mut self) {
        self.calls.before_execute();
        self.current = self.current.saturating_add(1);
    }

    fn before_commit(&mut self) {
        self.calls.before_commit();
    }

    fn after_commit(&mut self) {
        self.calls.after_commit();
        let is_noted = match &mut self.waiting {
            Some(waiting) => waiting.push_back(self.current).is_ok(),
            None => true,
        };
        self.current = 0;
        if !is_noted {
            self.waiting = None;
        }
    }

    fn released(&mut self, replies: &[Done]) {
        let Some(waiting) = &mut self.waiting else {
            return;
        };
        for done in replies {
            if let Some(tries) = waiting.pop_front() {
                self.tries.of(done.reply()).add(tries);
            }
        }
    }
}
