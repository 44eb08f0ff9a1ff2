// A stack is copied as other plain values are: four of them from behind a reference, one that is passed twice, alone or
// in a struct. And stacks are equal by what they hold, whatever came off them before.
use crate::rows::{beside, filled, stack_of};
use stacks::changes::{Change, Few};
use stacks::stack::Stack;

#[derive(Clone, Copy)]
struct Machine {
    stacks: [Stack; 4],
}

fn copy_of(stacks: &[Stack; 4]) -> [Stack; 4] {
    *stacks
}

fn depth_of(own: Stack) -> usize {
    own.words.depth()
}

fn first_depth_of(machine: Machine) -> usize {
    depth_of(machine.stacks[0])
}

#[test]
fn copies(rt: HostRuntime) {
    let stacks = beside(filled(3));
    let mut copies = copy_of(&stacks);
    copies[0].words.settle(Change::Replace(1, Few::Zero));
    assert_eq!(rt; stacks[0].words.depth(), 3);
    let own = copies[0];
    assert_eq!(rt; depth_of(own), 2);
    assert_eq!(rt; depth_of(own), 2);
    let machine = Machine { stacks: copies };
    assert_eq!(rt; first_depth_of(machine), 2);
    assert_eq!(rt; first_depth_of(machine), 2);
}

#[test]
fn equal_by_words(rt: HostRuntime) {
    let clear = (false, false);
    let mut own = stack_of(&[1, 2], clear);
    own.words.settle(Change::Replace(1, Few::Zero));
    assert_eq!(rt; own, stack_of(&[1], clear));
    assert!(rt; own != stack_of(&[2], clear), "another word");
    assert!(rt; own != stack_of(&[1, 2], clear), "a word more");
    assert!(rt; own.words != Stack::new().words, "a word less");
}
