// Fair turns on the line (§12 of the requests): a turn record of three numbers, and a turn, which serves one waiting till. It stands apart from the store.
#![tactic(auto)]

ghost use Rattle.std.specs.Prelude.{◌≡◌, true, ◌<◌};
ghost use Rattle.std.proofs.Math.Option.{some};
ghost use Rattle.dispatcher.specs.Turns.{is_turn, next_till, turn_for, served_turn, turn_of};

// The turn record: the tills present, the mask of those waiting (bit t for till t) and the till served last.
#[repr(C)]
#[derive(Clone, Copy, Debug, PartialEq, Eq)]
pub struct Turn {
    pub tills: u32,
    pub waiting: u32,
    pub last: u32,
}

// What a turn answers: a refusal or 0, whether a till is served, and which; 0 where none is.
// Kept: a promise that may not change: turn_of is a definition over this struct, which C has too.
#[repr(C)]
#[derive(Clone, Copy, Debug, PartialEq, Eq)]
pub struct Served {
    pub refusal: u32,
    pub served: bool,
    pub till: u32,
}

// The answer and the turn record after it.
#[repr(C)]
#[derive(Clone, Copy, Debug, PartialEq, Eq)]
pub struct Stepped {
    pub answer: Served,
    pub turn: Turn,
}

// 1 to 16 tills, no mark and no last till at or above their count.
fn is_turn(turn: Turn) -> bool
    ensures { result ≡ is_turn turn }
{
    let tills = turn.tills;
    if tills < 1 {
        return false;
    }
    if 16 < tills {
        return false;
    }
    if 1u32 << tills <= turn.waiting {
        return false;
    }
    turn.last < tills
}

// The first waiting till after the last served, round the circle: of the marks above the last till, or else of all marks.
fn next_till(turn: Turn) -> u32
    requires turn_value { is_turn turn ≡ true }
    requires waiting_nonzero { 0 < turn.waiting }
    ensures { next_till turn ≡ some result }
{
    let waiting = turn.waiting;
    let first = turn.last + 1;
    let after = waiting >> first;
    if after != 0 {
        return first + u32::trailing_zeros(after);
    }
    u32::trailing_zeros(waiting)
}

// The one served becomes the last and loses its mark.
fn serve(turn: Turn, till: u32) -> Stepped
    requires turn_value { is_turn turn ≡ true }
    requires turn_value_2 { next_till turn ≡ some till }
    ensures { result ≡ served_turn turn till }
{
    let answer = Served {
        refusal: 0,
        served: true,
        till,
    };
    let next = Turn {
        tills: turn.tills,
        waiting: turn.waiting - (1u32 << till),
        last: till,
    };
    Stepped { answer, turn: next }
}

// A turn of a record that is one.
fn accept(turn: Turn) -> Stepped
    requires { is_turn turn ≡ true }
    ensures { result ≡ turn_for turn (next_till turn) }
{
    if turn.waiting == 0 {
        let answer = Served {
            refusal: 0,
            served: false,
            till: 0,
        };
        return Stepped { answer, turn };
    }
    let till = next_till(turn);
    serve(turn, till)
}

// A turn, by value.
pub fn step(turn: Turn) -> Stepped
    ensures { result ≡ turn_of turn }
{
    if is_turn(turn) {
        return accept(turn);
    }
    let answer = Served {
        refusal: 27,
        served: false,
        till: 0,
    };
    Stepped { answer, turn }
}

// A turn of the record that a dispatcher keeps and lends.
pub fn take_turn(turn: &mut Turn) -> Served
    ensures { (result ≡ (turn_of turn.old).answer) × (turn.new ≡ (turn_of turn.old).turn) }
{
    let stepped = step(*turn);
    *turn = stepped.turn;
    stepped.answer
}
