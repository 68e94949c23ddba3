//! Replies, each printed straight into the output: its room is taken there at once, and then its parts are written.
ghost use Rattle.std.specs.Prelude.{◌≡◌, ◌≤◌, ◌+◌, ◌*◌, ◌++◌, ℕ, length, codes, IfErr, IfOk, OnOk, OnErr, string_bytes};
ghost use Rattle.std.specs.String.{string_len, string_capacity};
ghost use Rattle.std.specs.List.{join_with_byte};
ghost use Rattle.program_script_text.specs.Output.{reply_words, payment_words, head_words, new_order_reply_words, delivery_words};
ghost use Rattle.program_script_text.specs.Output.{status_words, balance_words, last_words, level_words};
ghost use Rattle.program_script_text.specs.Output.{supplied_word, supplied_text, delivered_word, delivered_text, told_word, told_text};
ghost use Rattle.program_script_text.specs.Room.{Pushes, line_count, last_line_count};

use crate::fields::{push_amount, push_field, push_nullable, push_text};
use money::Refusal;
use tables::{
    DeliveredOrder, DeliveryReply, LastOrder, NewOrderReply, OrderLine, OrderStatusReply,
    PaymentReply, Reply, StockLevelReply, SuppliedLine,
};

/// The most bytes of a reply less its lines.
const HEAD_ROOM: usize = 128;

/// The most bytes of a line of a reply.
const LINE_ROOM: usize = 72;

/// Appends a reply and a line feed. Refuses only where memory runs out, and then `out` is as before.
pub fn print_reply(reply: &Reply, out: &mut String) -> Result<(), Refusal>
    ensures ok { OnOk result (string_bytes out.new
        ≡ string_bytes out.old ++ (join_with_byte 32 (reply_words reply.now) ++ codes "\n")) }
    ensures err { OnErr result (string_bytes out.new ≡ string_bytes out.old) }
    ensures memory { IfErr result (λ refusal. refusal ≡ Refusal.OutOfMemory) }
{
    let room = room_for(lines_of(reply))?;
    out.reserve(room)?;
    push_reply(out, reply);
    push_text(out, "\n");
    Ok(())
}

/// How many lines, or districts, a reply has.
fn lines_of(reply: &Reply) -> usize
    ensures { result ≡ line_count reply.now }
{
    match reply {
        Reply::Payment(_) | Reply::StockLevel(_) => 0,
        Reply::NewOrder(reply) => reply.lines.as_slice().len(),
        Reply::Delivery(reply) => reply.orders.as_slice().len(),
        Reply::OrderStatus(reply) => match &reply.order {
            Some(order) => order.lines.as_slice().len(),
            None => 0,
        },
    }
}

/// The room for a reply of so many lines and its line feed. No memory has room for more lines than it can tell.
fn room_for(lines: usize) -> Result<usize, Refusal>
    ensures ok { IfOk result (λ room. room ≡ HEAD_ROOM + LINE_ROOM * lines + 1) }
    ensures memory { IfErr result (λ refusal. refusal ≡ Refusal.OutOfMemory) }
{
    let Some(room) = lines.checked_mul(LINE_ROOM) else {
        return Err(Refusal::OutOfMemory);
    };
    match room.checked_add(HEAD_ROOM + 1) {
        Some(room) => Ok(room),
        None => Err(Refusal::OutOfMemory),
    }
}

/// Appends a reply.
fn push_reply(out: &mut String, reply: &Reply)
    requires { string_len out.old + (HEAD_ROOM + LINE_ROOM * line_count reply.now) ≤ string_capacity out.old }
    ensures { Pushes out.old out.new (join_with_byte 32 (reply_words reply.now))
        (HEAD_ROOM + LINE_ROOM * line_count reply.now) }
{
    match reply {
        Reply::Payment(reply) => push_payment(out, reply),
        Reply::NewOrder(reply) => push_order(out, reply),
        Reply::Delivery(reply) => push_delivery(out, reply),
        Reply::OrderStatus(reply) => push_status(out, reply),
        Reply::StockLevel(reply) => push_level(out, reply),
    }
}

fn push_payment(out: &mut String, reply: &PaymentReply)
    requires { string_len out.old + HEAD_ROOM ≤ string_capacity out.old }
    ensures { Pushes out.old out.new (join_with_byte 32 (payment_words reply.now)) HEAD_ROOM }
{
    push_field(out, "payment ", reply.warehouse);
    push_field(out, " ", reply.district);
    push_field(out, " customer ", reply.customer_warehouse);
    push_field(out, " ", reply.customer_district);
    push_field(out, " ", reply.customer);
    push_amount(out, " balance ", reply.balance);
}

fn push_order(out: &mut String, reply: &NewOrderReply)
    requires { string_len out.old + (HEAD_ROOM + LINE_ROOM * length reply.now.lines) ≤ string_capacity out.old }
    ensures { Pushes out.old out.new (join_with_byte 32 (new_order_reply_words reply.now))
        (HEAD_ROOM + LINE_ROOM * length reply.now.lines) }
{
    push_head(out, reply);
    push_supplied(out, reply.lines.as_slice());
}

/// Appends what is said of an order itself.
fn push_head(out: &mut String, reply: &NewOrderReply)
    requires { string_len out.old + HEAD_ROOM ≤ string_capacity out.old }
    ensures { Pushes out.old out.new (join_with_byte 32 (head_words reply.now)) HEAD_ROOM }
{
    push_field(out, "neworder ", reply.warehouse);
    push_field(out, " ", reply.district);
    push_field(out, " ", reply.order);
    push_field(out, " customer ", reply.customer);
    push_amount(out, " lines ", reply.amount);
    push_amount(out, " total ", reply.total);
}

/// Appends the lines of an order, each behind a space.
fn push_supplied(out: &mut String, lines: &[SuppliedLine])
    requires { string_len out.old + LINE_ROOM * length lines.now ≤ string_capacity out.old }
    ensures { Pushes out.old out.new (supplied_text lines.now) (LINE_ROOM * length lines.now) }
{
    for line in lines {
        push_supplied_line(out, line);
    }
}

fn push_supplied_line(out: &mut String, line: &SuppliedLine)
    requires { string_len out.old + LINE_ROOM ≤ string_capacity out.old }
    ensures { Pushes out.old out.new (codes " " ++ supplied_word line.now) LINE_ROOM }
{
    push_field(out, " ", line.item);
    push_field(out, ":", line.supply_warehouse);
    push_field(out, ":", line.stock);
    push_amount(out, ":", line.amount);
}

fn push_delivery(out: &mut String, reply: &DeliveryReply)
    requires { string_len out.old + (HEAD_ROOM + LINE_ROOM * length reply.now.orders) ≤ string_capacity out.old }
    ensures { Pushes out.old out.new (join_with_byte 32 (delivery_words reply.now))
        (HEAD_ROOM + LINE_ROOM * length reply.now.orders) }
{
    push_field(out, "delivery ", reply.warehouse);
    push_delivered(out, reply.orders.as_slice());
}

/// Appends what was delivered in each district, each behind a space.
fn push_delivered(out: &mut String, orders: &[DeliveredOrder])
    requires { string_len out.old + LINE_ROOM * length orders.now ≤ string_capacity out.old }
    ensures { Pushes out.old out.new (delivered_text orders.now) (LINE_ROOM * length orders.now) }
{
    for delivered in orders {
        push_delivered_order(out, delivered);
    }
}

fn push_delivered_order(out: &mut String, delivered: &DeliveredOrder)
    requires { string_len out.old + LINE_ROOM ≤ string_capacity out.old }
    ensures { Pushes out.old out.new (codes " " ++ delivered_word delivered.now) LINE_ROOM }
{
    push_field(out, " ", delivered.district);
    push_nullable(out, ":", delivered.order);
}

fn push_status(out: &mut String, reply: &OrderStatusReply)
    requires { string_len out.old + (HEAD_ROOM + LINE_ROOM * last_line_count reply.now.order)
        ≤ string_capacity out.old }
    ensures { Pushes out.old out.new (join_with_byte 32 (status_words reply.now reply.now.order))
        (HEAD_ROOM + LINE_ROOM * last_line_count reply.now.order) }
{
    match &reply.order {
        Some(order) => {
            push_last_head(out, reply, order);
            push_told(out, order.lines.as_slice());
        }
        None => {
            push_balance(out, reply);
            push_text(out, " none");
        }
    }
}

/// Appends what is said of a customer's last order before its lines.
fn push_last_head(out: &mut String, reply: &OrderStatusReply, order: &LastOrder)
    requires { string_len out.old + HEAD_ROOM ≤ string_capacity out.old }
    ensures { Pushes out.old out.new (join_with_byte 32 (last_words reply.now order.now)) HEAD_ROOM }
{
    push_balance(out, reply);
    push_field(out, " ", order.order);
    push_field(out, " date ", order.entry_date);
    push_nullable(out, " carrier ", order.carrier);
}

/// Appends what is said of a customer, whether it has an order or not.
fn push_balance(out: &mut String, reply: &OrderStatusReply)
    requires { string_len out.old + 80 ≤ string_capacity out.old }
    ensures { Pushes out.old out.new (join_with_byte 32 (balance_words reply.now)) 80 }
{
    push_field(out, "status ", reply.warehouse);
    push_field(out, " ", reply.district);
    push_field(out, " ", reply.customer);
    push_amount(out, " balance ", reply.balance);
    push_text(out, " order");
}

/// Appends the lines of a customer's last order, each behind a space.
fn push_told(out: &mut String, lines: &[OrderLine])
    requires { string_len out.old + LINE_ROOM * length lines.now ≤ string_capacity out.old }
    ensures { Pushes out.old out.new (told_text lines.now) (LINE_ROOM * length lines.now) }
{
    for line in lines {
        push_told_line(out, line);
    }
}

fn push_told_line(out: &mut String, line: &OrderLine)
    requires { string_len out.old + LINE_ROOM ≤ string_capacity out.old }
    ensures { Pushes out.old out.new (codes " " ++ told_word line.now) LINE_ROOM }
{
    push_field(out, " ", line.item);
    push_field(out, ":", line.supply_warehouse);
    push_field(out, ":", line.quantity);
    push_amount(out, ":", line.amount);
    push_nullable(out, ":", line.delivery_date);
}

fn push_level(out: &mut String, reply: &StockLevelReply)
    requires { string_len out.old + HEAD_ROOM ≤ string_capacity out.old }
    ensures { Pushes out.old out.new (join_with_byte 32 (level_words reply.now)) HEAD_ROOM }
{
    push_field(out, "level ", reply.warehouse);
    push_field(out, " ", reply.district);
    push_field(out, " threshold ", reply.threshold);
    push_field(out, " low ", reply.low);
}
