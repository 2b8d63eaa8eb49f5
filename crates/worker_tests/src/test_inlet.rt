//! An inlet that gives what a test tells it to.

use edge_io::{ListSink, ListSource};
use policy_publish::{Latest, StoreName, Told};
use rpz_workers::InletItems;
use server_io::{Inlet, Received};
use std::collections::VecDeque;
use std::process::Abort;
use std::sync::Wait;

/// What an inlet does once it is asked: it publishes a list, if there is one, and then gives this.
#[derive(Drop)]
pub struct InletStage<N: StoreName> {
    pub told: Option<Told<N>>,
    pub received: Received<ListSource, ListSink>,
}

/// An inlet that takes these stages from the front, and ends behind the last.
#[derive(Drop)]
pub struct TestInlet<N: StoreName, R: Wait + Drop> {
    rt: R,
    latest: Latest<N>,
    stages: VecDeque<InletStage<N>>,
}

/// Items out of such an inlet.
pub type TestItems<N, R> = InletItems<N, ListSource, ListSink, TestInlet<N, R>, R>;

impl<N: StoreName, R: Wait + Drop> Inlet<ListSource, ListSink> for TestInlet<N, R> {
    fn next(&mut self) -> Received<ListSource, ListSink> {
        match self.stages.pop_front() {
            Some(InletStage { told, received }) => {
                if let Some(told) = told {
                    self.latest.set(&self.rt, told);
                }
                received
            }
            None => Received::End,
        }
    }
}

/// The items that come of these stages, behind what was published last.
pub fn items_of<N: StoreName, R: Abort + Wait + Copy + Drop>(
    rt: R,
    latest: &Latest<N>,
    stages: VecDeque<InletStage<N>>,
) -> TestItems<N, R> {
    let published = latest.again().expect(&rt, "no error");
    let latest = latest.again().expect(&rt, "no error");
    let inlet = TestInlet { rt, latest, stages };
    InletItems::new(rt, inlet, published)
}
