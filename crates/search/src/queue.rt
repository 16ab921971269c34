// A first-in-first-out queue over places that the caller lends.
ghost use Rattle.std.specs.Prelude.{◌≡◌, ◌-◌, ◌<◌, ◌≤◌, [], length, ◌==◌};
ghost use Rattle.search.specs.Rings.{held, after, behind, Pushed, Written, Popped, Fronted};

// A ring: the items stand from `head` on, and go on from place 0 where they pass the end. The head is a place, if there is one.
// Kept: a head and a length over lent places, by the project's rule, so that a search takes no memory of its own.
#[derive(Drop)]
pub struct Queue<'a, T> {
    places: &'a mut [T],
    head: usize,
    len: usize,
    ghost starts: { head ≤ length places.now - 1 },
    ghost fits: { len ≤ length places.now },
}

impl<'a, T: Copy> Queue<'a, T> {
    // An empty queue, with as much room as there are places; none of them is written yet.
    pub fn new(places: &'a mut [T]) -> Queue<'a, T>
        ensures items { held result.places.now result.head result.len ≡ [] }
        ensures ring { (result.head ≡ 0) × (result.len ≡ 0) }
        ensures places { result.places.now ≡ places.old }
        ensures room { length result.places.now ≡ length places.old }
        ensures lender { result.places.ghost_name ≡ places.entry.ghost_name }
    {
        Queue {
            places,
            head: 0,
            len: 0,
        }
    }

    // Whether every place is taken.
    fn is_full(&self) -> bool
        ensures { result ≡ (self.now.len == length self.now.places.now) }
    {
        self.len == self.places.len()
    }

    // The place behind the last item.
    fn free_place(&self) -> usize
        requires { self.now.len < length self.now.places.now }
        ensures { result ≡ behind self.now.places.now self.now.head self.now.len }
    {
        let room = self.places.len() - self.head;
        if self.len < room {
            self.head + self.len
        } else {
            self.len - room
        }
    }

    // The place after the head.
    fn next_head(&self) -> usize
        requires { 0 < length self.now.places.now }
        ensures { result ≡ after self.now.places.now self.now.head }
    {
        let next = self.head + 1;
        if next == self.places.len() { 0 } else { next }
    }

    // Puts `item` last, or answers false where every place is taken.
    pub fn push(&mut self, item: T) -> bool
        ensures items { Pushed (held self.old.places.now self.old.head self.old.len) item result (held self.new.places.now self.new.head self.new.len) (length self.old.places.now) }
        ensures written { Written self.old.places.now self.old.head self.old.len item result self.new.places.now }
        ensures room { length self.new.places.now ≡ length self.old.places.now }
        ensures lender { self.new.places.ghost_name ≡ self.old.places.ghost_name }
    {
        if self.is_full() {
            return false;
        }
        let free = self.free_place();
        self.places[free] = item;
        self.len += 1;
        true
    }

    // The first item, which stays.
    pub fn front(&self) -> Option<T>
        ensures { Fronted (held self.now.places.now self.now.head self.now.len) result }
    {
        if self.len == 0 {
            None
        } else {
            Some(self.places[self.head])
        }
    }

    // Takes the first item.
    pub fn pop(&mut self) -> Option<T>
        ensures items { Popped (held self.old.places.now self.old.head self.old.len) result (held self.new.places.now self.new.head self.new.len) }
        ensures places { self.new.places.now ≡ self.old.places.now }
        ensures room { length self.new.places.now ≡ length self.old.places.now }
        ensures lender { self.new.places.ghost_name ≡ self.old.places.ghost_name }
    {
        let item = self.front()?;
        self.head = self.next_head();
        self.len -= 1;
        Some(item)
    }
}
