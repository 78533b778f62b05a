// A list that is given away from its front.
ghost use Rattle.std.specs.Prelude.{◌≡◌, ◌++◌, [], IfNone, option_to_list};
ghost use Rattle.std.specs.Slice.{IsItemAt};

use plain::Items;
use std::collections::VecDeque;
use std::marker::Model;

/// Items that are taken one by one, in order.
pub(crate) struct Queue<T> {
    items: VecDeque<T>,
}

impl<T: Drop> Drop for Queue<T> {
    fn drop(self) {
        let Queue { items: _ } = self;
    }
}

impl<T> Model for Queue<T> {
    ghost use Rattle.std.specs.Prelude.{List};

    ghost Value = { List T };

    ghost view = { λ q. q.items.items };
}

impl<T> Queue<T> {
    pub fn new(items: Items<T>) -> Self
        ensures { result ≡ items }
    {
        Queue {
            items: VecDeque::from_vec(items.into_vec()),
        }
    }

    pub fn first(&self) -> Option<&T>
        ensures item { IsItemAt self.now 0 result }
        ensures none { IfNone result (self.now ≡ []) }
    {
        self.items.front()
    }

    pub fn take_first(&mut self) -> Option<T>
        ensures first { self.old ≡ option_to_list result ++ self.new }
        ensures none { IfNone result (self.new ≡ []) }
    {
        self.items.pop_front()
    }
}
