// The cabinets that wait for their turn.
// Kept: the queue is lent to these steps on its own, since between them the fact that a run keeps of it need not hold; so each step says that the places stay.
ghost use Rattle.std.specs.Prelude.{◌≡◌, ◌<◌, [], ◌∷◌, ◌++◌, length, drop, IfSome};
ghost use Rattle.search.specs.Queues.{items, room};
ghost use Rattle.preflow.specs.Waits.{arrived, parted, settled};

use search::queue::Queue;

// The first goes to the back.
pub fn requeue(queue: &mut Queue<u8>, first: u8)
    requires front { items queue.old ≡ first ∷ drop 1 (items queue.old) }
    ensures items { items queue.new ≡ drop 1 (items queue.old) ++ (first ∷ []) }
    ensures room { room queue.new ≡ room queue.old }
{
    queue.pop();
    queue.push(first);
}

// A cabinet whose whole excess has just come waits.
fn arrive(queue: &mut Queue<u8>, excess: &[u32; 64], to: Option<u8>, by: u32)
    requires near { IfSome to (λ w. w < 64) }
    requires fits { length (items queue.old) < room queue.old }
    ensures items { items queue.new ≡ arrived excess.now by to (items queue.old) }
    ensures room { room queue.new ≡ room queue.old }
{
    if let Some(w) = to {
        if excess[w as usize] == by {
            queue.push(w);
        }
    }
}

// The first one leaves where it has no more excess.
fn leave(queue: &mut Queue<u8>, excess: &[u32; 64], first: u8)
    requires inside { first < 64 }
    ensures items { items queue.new ≡ parted excess.now first (items queue.old) }
    ensures room { room queue.new ≡ room queue.old }
{
    if excess[first as usize] == 0 {
        queue.pop();
    }
}

// The queue after `by` was sent from the first cabinet.
pub fn settle(queue: &mut Queue<u8>, excess: &[u32; 64], first: u8, to: Option<u8>, by: u32)
    requires inside { first < 64 }
    requires near { IfSome to (λ w. w < 64) }
    requires fits { length (items queue.old) < room queue.old }
    ensures items { items queue.new ≡ settled excess.now first by to (items queue.old) }
    ensures room { room queue.new ≡ room queue.old }
{
    arrive(queue, excess, to, by);
    leave(queue, excess, first);
}
