//! The cable: what becomes of each telegram.

ghost use Rattle.std.specs.Prelude.{◌≡◌, ◌<◌, length, slice_set, IfSome, None, []};
ghost use Rattle.dp_telegram.specs.FrameText.{frame_at};
ghost use Rattle.cable_faults.specs.Chances.{random_words_after_draw, draw_of};
ghost use Rattle.cable_faults.specs.Decisions.{decision_of, delay_of as delay_by, done_by, treatment_by, first_for, is_among, is_last as is_last_of, is_off as is_off_at, is_own_token as is_own_token_of, order_at, order_treatment, ordered_treatment, slave_of as slave_by, turn_of, used, waiting_after, with_one_less};

use crate::options::{Direction, Options};
use crate::order::{Order, OrderKind};
use crate::random_words::{Draw, RandomWords};
use crate::spoiling::{cut, spoil};
use crate::treatment::Treatment;
use arrayvec::ArrayVec;
use dp_telegram::{FrameLent, WholeFrame};

/// The most slaves that are off the bus at once: all addresses of stations.
pub(crate) const MOST_OFF: usize = 127;

/// The most orders that wait at once.
pub(crate) const MOST_WAITING: usize = 64;

/// A cable between masters and a line: what it does to telegrams, by its options and by lines of text.
#[derive(Debug, Drop)]
pub struct Cable {
    pub(crate) options: Options,
    /// The addresses of the slaves that are off the bus.
    pub(crate) off: ArrayVec<u8, MOST_OFF>,
    /// The orders for replies that have not all come, in the order of their lines.
    pub(crate) waiting: ArrayVec<Order, MOST_WAITING>,
}

/// What the cable does with a telegram.
#[derive(Clone, Copy, Debug, PartialEq, Eq)]
pub struct Decision {
    /// What becomes of the telegram.
    pub treatment: Treatment,
    /// The milliseconds after which it goes out.
    pub wait: u64,
    /// The slave that the telegram belongs to, if it belongs to one.
    pub slave: Option<u8>,
    /// The order whose last reply this telegram is, if it is one.
    pub done: Option<Order>,
}

impl Cable {
    /// Returns a cable with these options. All slaves are on the bus, and no order waits.
    pub fn new(options: Options) -> Cable
        ensures options { result.options ≡ options }
        ensures off { result.off.items ≡ [] }
        ensures waiting { result.waiting.items ≡ [] }
    {
        Cable {
            options,
            off: ArrayVec::new(),
            waiting: ArrayVec::new(),
        }
    }

    /// Decides what becomes of a telegram of this direction. `random_words` are those of the direction, and `asked` is the
    /// slave of the last request, to which a short acknowledgement belongs.
    pub fn take(
        &mut self,
        direction: Direction,
        frame: &WholeFrame<'_>,
        asked: Option<u8>,
        random_words: &mut RandomWords,
    ) -> Decision
        ensures decision { result ≡ decision_of self.old direction frame.now asked (draw_of random_words.old) }
        ensures waiting { (self.new).waiting.items ≡ waiting_after self.old direction frame.now asked }
        ensures off { (self.new).off ≡ (self.old).off }
        ensures options { (self.new).options ≡ (self.old).options }
        ensures random_words { random_words.new ≡ random_words_after_draw random_words.old }
    {
        let draw = random_words.draw();
        let slave = slave_of(frame, direction, asked);
        let off = is_off(&self.off, slave);
        let turn = turn_in(&self.waiting, direction, off, slave);
        let order = use_order(&mut self.waiting, turn);
        let treatment = treatment(&self.options, direction, off, order, frame, &draw);
        Decision {
            treatment,
            wait: u64::from(delay_of(&self.options, direction)) + u64::from(treatment.lateness()),
            slave,
            done: done_with(order),
        }
    }
}

/// Returns the slave that a telegram belongs to: that of its destination address if it is a request, and that of its
/// source address if it is a reply. A short acknowledgement belongs to `asked`, and a token to none.
fn slave_of(frame: &WholeFrame<'_>, direction: Direction, asked: Option<u8>) -> Option<u8>
    ensures { result ≡ slave_by direction (frame_at frame.now) asked }
{
    let content = frame.frame();
    match direction {
        Direction::Request => match content {
            FrameLent::Token { .. } => None,
            FrameLent::Ack => None,
            FrameLent::Telegram(telegram) => Some(telegram.destination()),
        },
        Direction::Reply => match content {
            FrameLent::Token { .. } => None,
            FrameLent::Ack => asked,
            FrameLent::Telegram(telegram) => Some(telegram.source()),
        },
    }
}

/// Returns whether a telegram is a token that a master sends to itself.
#[tactic(auto, using(crate::proofs::Whole::frame_is))]
fn is_own_token(frame: &WholeFrame<'_>) -> bool
    ensures { result ≡ is_own_token_of (frame_at frame.now) }
{
    match frame.frame() {
        FrameLent::Token { da, sa } => da == sa,
        FrameLent::Ack => false,
        FrameLent::Telegram(_) => false,
    }
}

/// Returns whether the slave of a telegram is off the bus.
fn is_off(off: &[u8], slave: Option<u8>) -> bool
    ensures { result ≡ is_off_at off.now slave }
{
    match slave {
        Some(slave) => contains_address(off, slave),
        None => false,
    }
}

/// Returns whether an address is one of these.
pub(crate) fn contains_address(addresses: &[u8], address: u8) -> bool
    ensures { result ≡ is_among addresses.now address }
{
    addresses.iter().any(|one| *one == address)
}

/// Returns the place of the order that decides what becomes of a telegram, if one does.
fn turn_in(waiting: &[Order], direction: Direction, off: bool, slave: Option<u8>) -> Option<usize>
    ensures turn { result ≡ turn_of direction off waiting.now slave }
    ensures within { IfSome result (λ place. place < length waiting.now) }
{
    if off {
        return None;
    }
    match direction {
        Direction::Request => None,
        Direction::Reply => first_order(waiting, slave?),
    }
}

/// Returns the place of the first order for a slave.
fn first_order(waiting: &[Order], slave: u8) -> Option<usize>
    ensures place { result ≡ first_for waiting.now slave }
    ensures within { IfSome result (λ place. place < length waiting.now) }
{
    waiting.iter().position(|order| order.slave == slave)
}

/// Returns the order at a place, and counts one of its replies: with the last one the order goes.
fn use_order(waiting: &mut ArrayVec<Order, MOST_WAITING>, turn: Option<usize>) -> Option<Order>
    requires { IfSome turn (λ place. place < length waiting.old.items) }
    ensures order { result ≡ order_at waiting.old.items turn }
    ensures waiting { waiting.new.items ≡ used waiting.old.items turn }
{
    let place = turn?;
    let order = waiting[place];
    if is_last(order) {
        waiting.remove(place);
    } else {
        count_reply(waiting, place, order);
    }
    Some(order)
}

/// Counts one reply of the order at a place, which is not its last.
fn count_reply(waiting: &mut ArrayVec<Order, MOST_WAITING>, place: usize, order: Order)
    requires { place < length waiting.old.items }
    ensures { waiting.new.items ≡ slice_set waiting.old.items place (with_one_less order) }
{
    let less = Order {
        left: order.left.saturating_sub(1),
        ..order
    };
    set_order(waiting.as_mut_slice(), place, less);
}

/// Replaces the order at a place.
fn set_order(waiting: &mut [Order], place: usize, order: Order)
    requires { place < length waiting.old }
    ensures { waiting.new ≡ slice_set waiting.old place order }
{
    waiting[place] = order;
}

/// Returns whether the next reply of an order is its last.
fn is_last(order: Order) -> bool
    ensures { result ≡ is_last_of order }
{
    order.left <= 1
}

/// Returns the order if its last reply has come.
fn done_with(order: Option<Order>) -> Option<Order>
    ensures { result ≡ done_by order }
{
    match order {
        Some(order) if is_last(order) => Some(order),
        Some(_) => None,
        None => None,
    }
}

/// Returns the milliseconds for which all telegrams of a direction are delayed.
pub(crate) fn delay_of(options: &Options, direction: Direction) -> u32
    ensures { result ≡ delay_by options.now direction }
{
    match direction {
        Direction::Request => 0,
        Direction::Reply => options.delay,
    }
}

/// Returns what becomes of a telegram: a token that is withheld and a slave that is off the bus come first, then an
/// order, and last chance.
fn treatment(
    options: &Options,
    direction: Direction,
    off: bool,
    order: Option<Order>,
    frame: &WholeFrame<'_>,
    draw: &Draw,
) -> Treatment
    ensures { result ≡ treatment_by options.now direction off order frame.now draw.now }
{
    if options.drops_tokens && is_own_token(frame) {
        return Treatment::Withheld;
    }
    if off {
        return Treatment::Lost;
    }
    match order {
        Some(order) => by_order(order.kind, frame, draw),
        None => by_chance(options, direction, frame, draw),
    }
}

/// Returns what becomes of a telegram by an order.
fn by_order(kind: OrderKind, frame: &WholeFrame<'_>, draw: &Draw) -> Treatment
    ensures { result ≡ order_treatment kind frame.now draw.now }
{
    match kind {
        OrderKind::Lose => Treatment::Lost,
        OrderKind::Spoil => spoil(frame, draw.place, draw.change),
        OrderKind::Cut => cut(frame, draw.place),
        OrderKind::Late { milliseconds } => Treatment::Late { milliseconds },
    }
}

/// Returns what becomes of a telegram by chance.
fn by_chance(
    options: &Options,
    direction: Direction,
    frame: &WholeFrame<'_>,
    draw: &Draw,
) -> Treatment
    ensures { result ≡ ordered_treatment None options.now direction frame.now draw.now }
{
    if !options.covered.covers(direction) {
        return Treatment::Passed;
    }
    if options.lose.hits(draw.lose) {
        return Treatment::Lost;
    }
    if options.spoil.hits(draw.spoil) {
        return spoil(frame, draw.place, draw.change);
    }
    if options.cut.hits(draw.cut) {
        return cut(frame, draw.place);
    }
    if options.late.hits(draw.late) {
        return Treatment::Late {
            milliseconds: options.late_milliseconds,
        };
    }
    Treatment::Passed
}
