//! The messages that a tick sends with many numbers. Each is spelled once, with 0 for each number,
//! and then copied with numbers of its own.

ghost use Rattle.std.specs.Prelude.{◌≡◌, ◌+◌, ◌≤◌, length, IfOk};
ghost use Rattle.gtpp_message.specs.Message.{Possible, TransferRequest};
ghost use Rattle.gtpp_message.specs.Packet.{Empty};
ghost use Rattle.gtpp_message.specs.Values.{transfer_value};
ghost use Rattle.gtpp_message.specs.Writing.{body_octets, written};
ghost use Rattle.node_core.specs.Octets.{order_of, wire};
ghost use Rattle.node_core.specs.Patterns.{numbered_at, order_pattern, test_pattern, the_patterns};

use crate::copy::Order;
use byteorder::{BigEndian, ByteOrder};
use gtpp_elements::Numbers;
use gtpp_message::{Message, Packet, Transfer, write_short};
use gw_base::{NoMemory, Octets, Short};
use std::alloc::Global;

/// Where a message has its own number, and where a release or a cancel has the one that it names.
const NUMBER: usize = 4;

const NAMED: usize = 11;

/// A test, a release and a cancel, with 0 for each number.
#[derive(Drop)]
pub(crate) struct Patterns {
    pub test: Short,
    pub release: Short,
    pub cancel: Short,
}

impl Patterns {
    /// The three messages as they are spelled.
    pub fn spelled() -> Patterns
        ensures { result ≡ the_patterns }
    {
        Patterns {
            test: spelled(Transfer::Possible(Packet::Empty)),
            release: order_pattern(Order::Release),
            cancel: order_pattern(Order::Cancel),
        }
    }

    /// A test with the last 16 bits of this number.
    #[tactic(auto, using(crate::proofs::WrittenLemmas::test_numbered))]
    pub fn test(&self, alloc: Global, number: u64) -> Result<Octets, NoMemory>
        requires { self.now ≡ the_patterns }
        ensures { IfOk result (λ octets. octets ≡ written (wire number) (TransferRequest (Possible Empty))) }
    {
        let mut octets = self.test.octets().to_vec(alloc)?;
        put_number(&mut octets, NUMBER, number);
        Ok(Octets::from_vec(octets))
    }

    /// A release or a cancel with the last 16 bits of these numbers, its own and the one that it
    /// names.
    #[tactic(auto, using(crate::proofs::WrittenLemmas::order_numbered))]
    pub fn order(
        &self,
        alloc: Global,
        number: u64,
        order: Order,
        named: u64,
    ) -> Result<Octets, NoMemory>
        requires { self.now ≡ the_patterns }
        ensures { IfOk result (λ octets. octets ≡ written (wire number) (TransferRequest (order_of order named))) }
    {
        let mut octets = self.of_order(order).to_vec(alloc)?;
        put_number(&mut octets, NUMBER, number);
        put_number(&mut octets, NAMED, named);
        Ok(Octets::from_vec(octets))
    }

    /// That of a release or a cancel.
    fn of_order(&self, order: Order) -> &[u8]
        requires { self.now ≡ the_patterns }
        ensures { result.now ≡ order_pattern order }
    {
        match order {
            Order::Release => self.release.octets(),
            Order::Cancel => self.cancel.octets(),
        }
    }
}

/// A release or a cancel, with 0 for both numbers.
fn order_pattern(order: Order) -> Short
    ensures { result ≡ order_pattern order }
{
    let Ok(numbers) = Numbers::of(&[0, 0]) else {
        unreachable!()
    };
    spelled(match order {
        Order::Release => Transfer::Release(numbers),
        Order::Cancel => Transfer::Cancel(numbers),
    })
}

/// Puts the last 16 bits of a number into the two octets from a place on.
fn put_number(octets: &mut [u8], place: usize, number: u64)
    requires { place + 2 ≤ length octets.old }
    ensures { octets.new ≡ numbered_at place (wire number) octets.old }
{
    BigEndian::write_u16(&mut octets[place..], (number % 65_536) as u16);
}

/// The request in the one spelling in which it is sent, with the number 0.
fn spelled(body: Transfer<'_>) -> Short
    requires { length (body_octets (TransferRequest (transfer_value body))) + 6 ≤ Short.CAPACITY }
    ensures { result ≡ written 0 (TransferRequest (transfer_value body.entry)) }
{
    write_short(0, &Message::TransferRequest { body })
}
