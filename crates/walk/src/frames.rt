// What a walk has still to do, in a table that the caller lends.
ghost use Rattle.std.specs.Prelude.{◌≡◌, ◌<◌, ◌≤◌, [], ◌∷◌, length, MatchOption};
ghost use Rattle.walk.specs.Steps.{node_of, waiting};

#[derive(Clone, Copy)]
pub enum Join {
    And,
    Or,
}

// What waits for the answer of one of a node's inputs.
#[derive(Clone, Copy)]
pub enum Frame<T> {
    // the join at the node, of its left side; its right one stands at the number
    Left(u16, Join, u16),
    // the join at the node, of its right side; its left one answered so
    Right(u16, Join, T),
    // the Not at the node
    Not(u16),
}

impl<T: Copy> Frame<T> {
    // The node that it is of.
    pub(crate) fn node(self) -> u16
        ensures is_its_own { result ≡ node_of self }
    {
        match self {
            Frame::Left(node, _, _) | Frame::Right(node, _, _) | Frame::Not(node) => node,
        }
    }
}

// What comes next: a node is visited, or what waits goes on with an answer.
#[derive(Clone, Copy)]
pub(crate) enum Turn<T> {
    Visit(u16),
    Answer(T),
}

// The first frames of the table wait, the last of them on top.
#[derive(Drop)]
pub(crate) struct Stack<'a, T> {
    pub(crate) frames: &'a mut [Frame<T>],
    pub(crate) count: usize,
}

impl<'a, T: Copy> Stack<'a, T> {
    #[tactic(auto, using(crate::proofs::Stacks::stacked_push))]
    pub(crate) fn push(&mut self, frame: Frame<T>)
        requires { self.old.count < length self.old.frames.now }
        ensures waits_on_top { waiting self.new ≡ frame ∷ waiting self.old }
        ensures keeps_the_table { length self.new.frames.now ≡ length self.old.frames.now }
    {
        self.frames[self.count] = frame;
        self.count += 1;
    }

    pub(crate) fn pop(&mut self) -> Option<Frame<T>>
        requires { self.old.count ≤ length self.old.frames.now }
        ensures is_the_top { MatchOption result (waiting self.old ≡ []) (λ frame. waiting self.old ≡ frame ∷ waiting self.new) }
        ensures keeps_the_table { length self.new.frames.now ≡ length self.old.frames.now }
    {
        self.count = self.count.checked_sub(1)?;
        Some(self.frames[self.count])
    }
}
