//! The book of a round: its batch, and the replies so far.
ghost use Rattle.std.specs.Prelude.{◌≡◌, ◌<◌, ℕ, List, [], false, length, replicate, slice_get, slice_set, Some, None};
ghost use Rattle.op_model.specs.declared.act.Entry.{Entry};
ghost use Rattle.op_model.specs.declared.reply.Reply.{Reply};
ghost use Rattle.op_round.specs.Books.{Asking, BookValue, IsKept, IsFit, IsActed};

use op_desk::Batch;
use op_model::{Reply, Task, Word};
use op_pricing::{FeeRule, PriceHook};
use std::marker::{Brand, Model, PhantomData};

/// What a round is of: plain data, which a call of a program picks.
pub trait Named {
    /// The history at which the round began.
    ghost start: { List Entry };

    /// Its moment.
    ghost moment: { ℕ };

    /// For each index its word and its task, or none.
    ghost asked: { Asking };
}

impl Named for Brand {
    ghost start = { [] };

    ghost moment = { 0 };

    ghost asked = { [] };
}

/// A round while several workers act in it, one at a time, with fees of one rule: its batch, and of each index the reply once
/// it was used.
#[derive(Drop)]
pub struct Book<N: Named, F: FeeRule> {
    batch: Batch,
    replies: Vec<Option<Reply>>,
    of: PhantomData<N>,
    rule: PhantomData<F>,
}

impl<N: Named, F: FeeRule> Model for Book<N, F> {
    ghost Value = { BookValue };

    ghost view = { λ b. record { batch = b.batch; replies = b.replies.items } };

    ghost invariant = { λ b. IsKept F.FeeTerms.allows N.start N.moment N.asked (record { batch = b.batch; replies = b.replies.items }) };
}

/// Puts a reply into its slot.
fn put(replies: &mut Vec<Option<Reply>>, index: u64, reply: Reply)
    requires { index < length replies.old.items }
    ensures { replies.new.items ≡ slice_set replies.old.items index (Some reply) }
{
    replies[index as usize] = Some(reply);
}

impl<N: Named, F: FeeRule> Book<N, F> {
    /// A book of a round in which nothing was done so far.
    pub fn new(batch: Batch, replies: Vec<Option<Reply>>) -> Book<N, F>
        requires start { (batch.begun ≡ N.start) × (batch.moment ≡ N.moment) × (batch.entries ≡ []) }
        requires indexes { (batch.places ≡ replicate (length N.asked) 0) × (batch.used ≡ replicate (length N.asked) false) }
        requires replies { replies.items ≡ replicate (length N.asked) None }
        ensures { result ≡ record { batch = batch; replies = replies.items } }
    {
        Book {
            batch,
            replies,
            of: PhantomData,
            rule: PhantomData,
        }
    }

    /// Whether this index was used.
    pub fn is_used(&self, index: u64) -> bool
        requires { index < length N.asked }
        ensures used { slice_get self.now.batch.used index ≡ Some result }
        ensures kept { IsKept F.FeeTerms.allows N.start N.moment N.asked self.now }
    {
        self.replies[index as usize].is_some()
    }

    /// The reply of an index that was used.
    fn reply(&self, index: u64) -> &Reply
        requires { (r : Reply) × (slice_get self.now.replies index ≡ Some (Some r)) }
        ensures { slice_get self.now.replies index ≡ Some (Some result.now) }
    {
        match &self.replies[index as usize] {
            Some(reply) => reply,
            None => unreachable!(),
        }
    }

    /// Acts for an index that was not used, and keeps the reply.
    pub(crate) fn act_at(&mut self, word: &Word, hook: &PriceHook<F>, index: u64, task: &Task)
        requires named { slice_get N.asked index ≡ Some (Some (record { word = word.now; task = task.now })) }
        requires unused { slice_get self.old.batch.used index ≡ Some false }
        requires fit { IsFit N.start task.now }
        ensures { (reply : Reply) × IsActed F.FeeTerms.allows self.old self.new index word.now task.now reply × (slice_get self.new.replies index ≡ Some (Some reply)) }
    {
        let reply = self.batch.act(word, hook, index, task);
        put(&mut self.replies, index, reply);
    }

    ghost use Rattle.op_round.specs.contracts.book.Book.{the_row};
    ghost use Rattle.std.specs.Prelude.{⊤};
    ghost use mathlib.Core.Option.{none};
    ghost use denote.Follow.{follows_so};
    ghost use Rattle.std.specs.Borrow.{sem};

    /// Acts for an index that was not used, as the batch does, and lends the reply that the book keeps.
    pub fn act(&mut self, word: &Word, hook: &PriceHook<F>, index: u64, task: &Task) -> &Reply
        requires named { slice_get N.asked index ≡ Some (Some (record { word = word.now; task = task.now })) }
        requires unused { slice_get self.old.batch.used index ≡ Some false }
        requires fit { IsFit N.start task.now }
        ensures* after { sem 𝓛 (follows_so (the_row N.row F.row N.Named F.FeeTerms) (the_row N.row F.row N.Named F.FeeTerms) self.entry.ghost_name none (λ _ _. ⊤)
            (λ n. IsActed F.FeeTerms.allows self.old n index word.now task.now result.now)) }
    {
        self.act_at(word, hook, index, task);
        self.reply(index)
    }

    /// Ends the round.
    pub fn finish(self) -> (Batch, Vec<Option<Reply>>)
        ensures batch { (result.0 ≡ self.batch) × (result.1.items ≡ self.replies) }
        ensures kept { IsKept F.FeeTerms.allows N.start N.moment N.asked self }
    {
        (self.batch, self.replies)
    }
}
