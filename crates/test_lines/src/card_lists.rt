//! A client of lists of records: players who hold cards. What it proves about the calls follows from their contracts only.
//! The prover reads these functions, and nothing runs them.

ghost use Rattle.std.specs.Prelude.{◌≡◌, ℕ, ◌<◌, ◌≤◌, List, [], ◌∷◌, length, map, Some, None};
ghost use Rattle.dp_owners.specs.Chain.{HaveNoLinks};
ghost use Rattle.dp_owners.specs.Threaded.{HasLists, IsThreaded};

use arrayvec::ArrayVec;
use dp_owners::{Cursor, Linked, Links, MOST_MASTERS, MOST_RECORDS, Owners, laws};
use std::marker::Model;

/// A client's record: a card with a name.
#[derive(Clone, Copy, Debug, Drop, PartialEq, Eq)]
pub struct Card {
    /// The name.
    pub name: u8,
    /// The neighbours in a player's hand.
    pub links: Links,
}

impl Linked for Card {
    ghost use Rattle.std.specs.Prelude.{None};

    ghost links_of = { λ card. card.links };

    ghost bare = { λ card. record card { links = record { prev = None; next = None } } };

    fn links(&self) -> Links {
        self.links
    }

    fn set_links(&mut self, links: Links) {
        self.links = links;
    }
}

/// Returns a card that is in no hand.
pub fn fresh_card(name: u8) -> Card
    ensures { result ≡ record { name = name; links = record { prev = None; next = None } } }
{
    Card {
        name,
        links: Links {
            prev: None,
            next: None,
        },
    }
}

/// Makes six calls, whose conditions and result follow from the contracts of the calls before.
pub fn six_calls(cards: &mut [Card]) -> ArrayVec<u8, MOST_RECORDS>
    requires four { length cards.old ≡ 4 }
    requires fresh { HaveNoLinks (map (λ card. card.links) cards.old) }
    ensures list { result.items ≡ 0 ∷ 3 ∷ [] }
    ensures names { map (λ card. card.name) cards.new ≡ map (λ card. card.name) cards.old }
{
    laws::other_records_stay();
    let mut owners = Owners::new();
    owners.append(cards, 0, 2);
    owners.append(cards, 0, 0);
    owners.append(cards, 1, 1);
    owners.unlink(cards, 0, 2);
    owners.append(cards, 0, 3);
    owners.list(cards, 0)
}

/// Returns three steps of a walk, and its count. Along a list of one card the steps are the card and None twice.
pub fn three_steps_along(hands: &Owners, cards: &[Card], player: usize) -> ([Option<u8>; 3], u32)
    requires threaded { HasLists hands.now (map (λ card. card.links) cards.now) }
    requires few { length cards.now ≤ MOST_RECORDS }
    requires player { player < MOST_MASTERS }
    ensures { (lists : ℕ → List ℕ) (at : ℕ)
        → IsThreaded hands.now (map (λ card. card.links) cards.now) lists
        → lists player ≡ at ∷ []
        → (result.0 ≡ Some at ∷ None ∷ None ∷ []) × (result.1 ≡ 1) }
{
    let mut cursor = Cursor::over(hands, player);
    let first = cursor.next(cards);
    let second = cursor.next(cards);
    let third = cursor.next(cards);
    ([first, second, third], cursor.visits())
}

/// A table at which each of 16 players has a hand of the 64 cards, in the order in which the player got them.
#[derive(Drop)]
pub struct Table {
    cards: [Card; MOST_RECORDS],
    hands: Owners,
}

impl Model for Table {
    ghost use Rattle.std.specs.Prelude.{List, ℕ, map};
    ghost use Rattle.dp_owners.specs.Threaded.{HasLists};

    ghost Value = { List ℕ };

    ghost view = { λ table. map (λ card. card.name) table.cards };

    ghost invariant = { λ table. HasLists table.hands (map (λ card. card.links) table.cards) };
}

impl Table {
    /// Returns a table at which no card is in a hand.
    pub fn new() -> Table {
        Table {
            cards: [fresh_card(b'c'); MOST_RECORDS],
            hands: Owners::new(),
        }
    }

    /// Gives a card to a player if it is in no hand. Returns whether it was.
    pub fn give(&mut self, player: usize, card: usize) -> bool
        requires player { player < MOST_MASTERS }
        requires card { card < MOST_RECORDS }
    {
        match self.hands.owner_of(&self.cards, card) {
            Some(_) => false,
            None => {
                self.hands.append(&mut self.cards, player, card);
                true
            }
        }
    }

    /// Takes a card from the player who has it.
    pub fn take(&mut self, card: usize) -> Option<usize>
        requires { card < MOST_RECORDS }
    {
        match self.hands.owner_of(&self.cards, card) {
            Some(player) => {
                self.hands.unlink(&mut self.cards, player, card);
                Some(player)
            }
            None => None,
        }
    }

    /// Returns the first three steps of a walk along a player's hand, and the number of cards that it visited.
    pub fn three_steps(&self, player: usize) -> ([Option<u8>; 3], u32)
        requires { player < MOST_MASTERS }
    {
        three_steps_along(&self.hands, &self.cards, player)
    }

    /// Returns a player's hand, in order and in reverse.
    pub fn hand(&self, player: usize) -> (ArrayVec<u8, MOST_RECORDS>, ArrayVec<u8, MOST_RECORDS>)
        requires { player < MOST_MASTERS }
    {
        (
            self.hands.list(&self.cards, player),
            self.hands.list_back(&self.cards, player),
        )
    }
}
