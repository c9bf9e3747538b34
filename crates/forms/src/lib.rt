// A decoded word in the form that the machine and the facts go over: one case for each shape, and one for a word that is not listed,
// which has a shape too.
#![tactic(auto)]

ghost use Rattle.std.specs.Prelude.{◌≡◌, ◌%◌};
ghost use Rattle.word.specs.Word.{InRange};
ghost use Rattle.machine.specs.Shape.{register, go, call, shape_of};
ghost use Rattle.machine.specs.Parts.{operation_of, transmission_of};
ghost use Rattle.forms.specs.Forms.{shape_is, FormFits};

use control::{Page, Paged};
use machine::act::{Argument, Delivery, Operation};
use word::Word;

#[derive(Clone, Copy)]
pub enum Form {
    Act(Delivery),
    Jump { a: usize },
    Branch(Paged),
    Defer(Paged),
    Call { i: u8 },
    Return,
    Invalid,
}

impl Form {
    // A CALL of any constant: its low byte is the one that a word has.
    pub fn call(i: usize) -> Form
        ensures { shape_is result ≡ go (register 0 0 0) (call (i % 256)) }
    {
        Form::Call { i: (i % 256) as u8 }
    }
}

// MOVE, ADD, AND, XOR.
fn operation(op: Operation, s: usize, l: usize, d: usize) -> Form
    ensures { result ≡ Form.Act (operation_of op s l d) }
{
    Form::Act(Delivery {
        op,
        from: Argument::Number(s),
        l,
        d,
    })
}

// XMIT.
fn transmission(d: usize, l: usize, i: u8) -> Form
    ensures { result ≡ Form.Act (transmission_of d l i) }
{
    Form::Act(Delivery {
        op: Operation::Move,
        from: Argument::Constant(i),
        l,
        d,
    })
}

// XEC or NZT.
fn paged(s: usize, l: usize, page: Page, i: u8) -> Paged
    ensures { result ≡ record { s = s; l = l; page = page; i = i } }
{
    Paged { s, l, page, i }
}

// The form of a word. A constant is a byte (`InRange`), so that `as` keeps it whole.
#[tactic(auto, unfolding(machine::specs::Shape::shape_of))]
pub fn form_of(word: Word) -> Form
    requires { InRange word }
    ensures { (shape_is result ≡ shape_of word) × FormFits result }
{
    match word {
        Word::Move { s, rl, d } => operation(Operation::Move, s, rl, d),
        Word::Add { s, rl, d } => operation(Operation::Add, s, rl, d),
        Word::And { s, rl, d } => operation(Operation::And, s, rl, d),
        Word::Xor { s, rl, d } => operation(Operation::Xor, s, rl, d),
        Word::XecRegister { s, i } => Form::Defer(paged(s, 0, Page::Long, i as u8)),
        Word::XecBank { s, l, i } => Form::Defer(paged(s, l, Page::Short, i as u8)),
        Word::NztRegister { s, i } => Form::Branch(paged(s, 0, Page::Long, i as u8)),
        Word::NztBank { s, l, i } => Form::Branch(paged(s, l, Page::Short, i as u8)),
        Word::Call { i } => Form::Call { i: i as u8 },
        Word::Ret { i } => Form::Return,
        Word::XmitRegister { d, i } => transmission(d, 0, i as u8),
        Word::XmitBank { d, l, i } => transmission(d, l, i as u8),
        Word::Jmp { a } => Form::Jump { a },
        Word::Invalid => Form::Invalid,
    }
}
