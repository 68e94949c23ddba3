//! A program of one's own: customer 3 pays 12.34, and the balance is printed, and whether all conditions hold.
#![tactic(auto)]

ghost use Rattle.book.specs.Parts.{IsAlone, IsOpenedAs};

use book::{Engine, Parts, Run};
use book_session::Session;
use money::Cents;
use std::sync::Wait;
use tables::{Input, PaymentInput, Reply, Scale, Who};

/// Opens an engine of these parts, whose one terminal has the book to itself.
fn open<K: Run, R: Wait + AllocGlobal + Print>(rt: &R, parts: Parts) -> anyhow::Result<()>
    requires run { IsOpenedAs parts K.run }
    requires alone { IsAlone parts K.name K.parts }
{
    let (engine, mut seats) = Engine::<K>::open(parts);
    let Some(seat) = seats.terminals.next() else {
        unreachable!();
    };
    pay(rt, Session::open(rt, rt.alloc(), &engine, seat))
}

/// Customer 3 of district 1 pays.
fn pay<K: Run, R: Wait + Print>(rt: &R, session: Session<'_, K>) -> anyhow::Result<()> {
    let mut session = session;
    let payment = PaymentInput {
        date: 1,
        warehouse: 1,
        district: 1,
        customer_warehouse: 1,
        customer_district: 1,
        who: Who::Id(3),
        amount: Cents::new(1_234),
    };
    let input = Input::payment(&session.population().scale(), payment)?;
    session.commit(rt, &input)?;
    let (report, dones) = session.close()?;
    if let Some(Reply::Payment(reply)) = dones.last().map(|done| done.reply()) {
        println!(rt; "balance {}, all good: {}", reply.balance, report.is_good())?;
    }
    Ok(())
}

fn main(rt: HostRuntime) -> anyhow::Result<()> {
    let population = population::Population::plain(rt.alloc(), Scale::new(1, 1, 10, 20, 30, 100)?)?;
    open::<std::marker::Brand, _>(&rt, Parts::new(&rt, rt.alloc(), population, 1, 1)?)
}
