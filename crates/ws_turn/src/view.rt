use crate::logged::Logged;
use atomic_table::{Seat, Shared as Table, TableRule};
use std::collections::LinkedList;
use std::marker::PhantomData;
use std::snapshot::Snapshot;

/// What a seat knows. No value of it is made.
pub struct View<S, E, B> {
    pub number: Option<u64>,
    pub seen: LinkedList<E>,
    /// What another pass had seen, until this one looks.
    pub told: LinkedList<E>,
    pub mine: LinkedList<E>,
    pub lost: LinkedList<u64>,
    /// The numbers that the holder's last entry gave, until a split makes a pass of one.
    pub pending: LinkedList<u64>,
    /// The numbers of passes that were joined since the value was taken.
    pub joined: LinkedList<u64>,
    pub ticket: Option<u64>,
    pub held: Option<S>,
    pub base: Option<B>,
    pub spent: bool,
}

pub struct Turns<S> {
    of: PhantomData<S>,
}

impl<S: Logged> TableRule<Option<S>, View<S, S::Entry, S::Base>, Snapshot<S>> for Turns<S> {
    ghost use Rattle.ws_turn.specs.Inside.Turn.{Turn};
    ghost use Rattle.ws_turn.specs.Inside.Steps.{first_view};

    ghost holds = { λ key. Turn S.list S.base S.by S.gives (S.base key.value) };

    ghost first = { λ key. first_view (S.base key.value) };
}

pub type Desk<S> = Table<
    Option<S>,
    View<S, <S as Logged>::Entry, <S as Logged>::Base>,
    Snapshot<S>,
    Turns<S>,
>;

pub type Chair<S> = Seat<Option<S>, View<S, <S as Logged>::Entry, <S as Logged>::Base>>;
