//! Which grant an access token belongs to, by the place of the entry that drew it.

ghost use Rattle.std.specs.Prelude.{◌≡◌, ◌≤◌, ◌<◌, ◌+◌, [], ◌∷◌, ◌++◌, ℕ, Some, None, OnOk, OnErr, MatchOption, All, length};
ghost use Rattle.op_grant.specs.Tokens.{grant_at, left, IsTokenAt};
ghost use Rattle.op_grant.specs.Indexed.{IsDrawnAt, IsFound};

use op_names::{SecretText, read_secret};
use std::alloc::{AllocError, Global};
use std::marker::Model;

/// The place of the entry that drew an access token, and the number of the token's grant.
#[derive(Clone, Copy)]
pub struct Token {
    pub place: u64,
    pub grant: u64,
}

/// Access tokens in ascending order of their places, which are found by halving, and the room for more. A token is
/// drawn behind all others, so it goes to the end.
#[derive(Drop)]
pub struct Tokens {
    kept: Vec<Token>,
}

impl Model for Tokens {
    ghost use Rattle.std.specs.Prelude.{◌-◌, vec_len, vec_capacity};
    ghost use Rattle.op_grant.specs.Tokens.{TokensValue, AreRising};

    ghost Value = { TokensValue };

    ghost view = { λ a. record { tokens = a.kept.items; room = vec_capacity a.kept - vec_len a.kept } };

    ghost invariant = { λ a. AreRising a.kept.items };
}

impl Tokens {
    /// No tokens, and no room.
    pub(crate) fn new(alloc: Global) -> Tokens
        ensures { result ≡ record { tokens = []; room = 0 } }
    {
        Tokens {
            kept: Vec::new(alloc),
        }
    }

    /// How many tokens there are.
    pub(crate) fn len(&self) -> usize
        ensures { result ≡ length self.now.tokens }
    {
        self.kept.len()
    }

    /// Makes room for at least so many more tokens. Where memory is short, nothing has changed.
    pub(crate) fn reserve(&mut self, more: usize) -> Result<(), AllocError>
        ensures same { self.new.tokens ≡ self.old.tokens }
        ensures room { OnOk result (more ≤ self.new.room) }
        ensures kept { self.old.room ≤ self.new.room }
        ensures err { OnErr result (self.new ≡ self.old) }
    {
        self.kept.reserve(more)
    }

    /// The grant of the token that was drawn at a place.
    pub(crate) fn find(&self, place: u64) -> Option<u64>
        ensures { result ≡ grant_at self.now.tokens place }
    {
        match self.position(place) {
            Some(at) => Some(self.kept[at].grant),
            None => None,
        }
    }

    // Where the token that was drawn at a place stands.
    fn position(&self, place: u64) -> Option<usize>
        ensures { MatchOption result (grant_at self.now.tokens place ≡ None)
            (λ at. IsTokenAt self.now.tokens at place) }
    {
        self.kept
            .binary_search_by_key(&place, |token| token.place)
            .ok()
    }

    /// Puts a token behind those that are there. Takes no memory.
    pub(crate) fn push(&mut self, token: Token)
        requires room { 0 < self.old.room }
        requires behind { All (λ t. t.place < token.place) self.old.tokens }
        ensures tokens { self.new.tokens ≡ self.old.tokens ++ token ∷ [] }
        ensures room { self.new.room + 1 ≡ self.old.room }
    {
        self.kept.push_reserved(token);
    }

    /// Takes away the token that was drawn at a place. Its room is free then.
    pub(crate) fn remove(&mut self, place: u64)
        ensures tokens { self.new.tokens ≡ left place self.old.tokens }
        ensures room { self.new.room + length self.new.tokens ≡ self.old.room + length self.old.tokens }
    {
        if let Some(at) = self.position(place) {
            self.kept.remove(at);
        }
    }

    /// Puts a token behind those that are there, in the stead of its grant's last one. Takes no memory.
    pub(crate) fn replace(&mut self, last: Option<SecretText>, token: Token)
        requires room { MatchOption last (0 < self.old.room) (IsFound self.old.tokens token.grant) }
        requires behind { All (λ t. t.place < token.place) self.old.tokens }
        ensures tokens { MatchOption last (self.new.tokens ≡ self.old.tokens ++ token ∷ [])
            (λ text. (place : ℕ) → IsDrawnAt place text
            → self.new.tokens ≡ left place self.old.tokens ++ token ∷ []) }
        ensures room { self.new.room + length self.new.tokens ≡ self.old.room + length self.old.tokens }
    {
        self.take_away(last);
        self.push(token);
    }

    // Takes away the token with a text, if one is given.
    fn take_away(&mut self, last: Option<SecretText>)
        ensures tokens { MatchOption last (self.new.tokens ≡ self.old.tokens)
            (λ text. (place : ℕ) → IsDrawnAt place text → self.new.tokens ≡ left place self.old.tokens) }
        ensures room { self.new.room + length self.new.tokens ≡ self.old.room + length self.old.tokens }
    {
        if let Some(text) = last {
            match place_of(&text) {
                Some(place) => self.remove(place),
                None => {}
            }
        }
    }
}

/// The place of the entry that drew the access token with this text.
pub(crate) fn place_of(text: &SecretText) -> Option<u64>
    ensures { (place : ℕ) → IsDrawnAt place text.now → result ≡ Some place }
{
    let (_, _, place) = read_secret(text.as_bytes())?;
    Some(place)
}
