// Whole arguments and lists of them, put into any sink.
// The clause `stays` of each compares a sink before and after a call, so no type can carry it.
ghost use Rattle.std.specs.Prelude.{◌≡◌, [], ◌∷◌, map, None};
ghost use Rattle.sinks.specs.Sinks.{verdict, finished};
ghost use Rattle.sinks.specs.Putting.{put_told, put as put_in, end_told, kept_or_cut};
ghost use Rattle.sinks.specs.Steps.{PutUntil};

use super::sink::Sink;
use super::token::Token;
use text::Refusal;

// Ends an argument whose writes had this outcome: finishes it, or withdraws it and answers their refusal.
pub fn end_argument<S: Sink>(
    sink: &mut S,
    token: Token,
    outcome: Result<(), Refusal>,
) -> Result<(), Refusal>
    ensures answer { verdict result ≡ end_told (verdict outcome) (S.rules (S.fixed sink.old)) (S.means sink.old) }
    ensures holds { S.means sink.new ≡ finished (verdict result) (S.means sink.old) }
    ensures stays { S.fixed sink.new ≡ S.fixed sink.old }
{
    match outcome {
        Ok(()) => sink.finish(token),
        Err(refusal) => {
            let _ = sink.withdraw(token);
            Err(refusal)
        }
    }
}

// Puts one argument: it goes in whole, or the sink holds what it held.
pub fn put_argument<S: Sink>(sink: &mut S, argument: &[u8]) -> Result<(), Refusal>
    ensures answer { verdict result ≡ put_told (S.rules (S.fixed sink.old)) (S.means sink.old) (argument.now ∷ []) }
    ensures holds { S.means sink.new ≡ put_in (verdict result) (argument.now ∷ []) (S.means sink.old) }
    ensures stays { S.fixed sink.new ≡ S.fixed sink.old }
{
    let token = sink.begin()?;
    let outcome = sink.write(argument);
    end_argument(sink, token, outcome)
}

// Takes back what was put behind the first n arguments, where the outcome is a refusal.
pub fn keep_or_cut<S: Sink>(
    sink: &mut S,
    n: usize,
    outcome: Result<(), Refusal>,
) -> Result<(), Refusal>
    ensures answer { result ≡ outcome }
    ensures holds { S.means sink.new ≡ kept_or_cut (verdict outcome) n (S.means sink.old) }
    ensures stays { S.fixed sink.new ≡ S.fixed sink.old }
{
    if outcome.is_err() {
        let _ = sink.cut(n);
    }
    outcome
}

// Puts a list of arguments as far as they go. It is a `for` and no chain, since it lends the sink anew to each call.
#[tactic(auto, using(crate::proofs::Stepping::both_ends))]
fn put_until<S: Sink>(sink: &mut S, list: &[&[u8]]) -> Result<(), Refusal>
    requires { (S.means sink.old).pending ≡ None }
    ensures until { PutUntil (S.rules (S.fixed sink.old)) (map (λ x. x.now) list.now) (verdict result) (S.means sink.old) (S.means sink.new) }
    ensures stays { S.fixed sink.new ≡ S.fixed sink.old }
{
    for argument in list {
        put_argument(sink, argument)?;
    }
    Ok(())
}

// Puts a list of arguments: all of them go in, or the sink holds what it held.
#[tactic(auto, using(crate::proofs::Stepping::nothing_cut))]
pub fn put_arguments<S: Sink>(sink: &mut S, list: &[&[u8]]) -> Result<(), Refusal>
    ensures answer { verdict result ≡ put_told (S.rules (S.fixed sink.old)) (S.means sink.old) (map (λ x. x.now) list.now) }
    ensures holds { S.means sink.new ≡ put_in (verdict result) (map (λ x. x.now) list.now) (S.means sink.old) }
    ensures stays { S.fixed sink.new ≡ S.fixed sink.old }
{
    // cutting to all that is there is declined where an argument is open, and else changes nothing
    let n = S::count(sink);
    sink.cut(n)?;
    let outcome = put_until(sink, list);
    keep_or_cut(sink, n, outcome)
}
