// The steps of a text that is accepted.

ghost use Rattle.std.specs.Prelude.{◌≡◌, ◌≤◌, length, take};

// The steps of an accepted text, each as its number (`actions::encode`). There are `count` of them; the entries behind the last are 0.
#[derive(Clone, Copy)]
pub struct Schedule {
    pub count: usize,
    pub steps: [u32; 4096],
    ghost room: { count ≤ 4096 },
}

impl Schedule {
    // The numbers of the steps, in their order.
    pub fn numbers(&self) -> &[u32]
        ensures steps { result.now ≡ take self.now.count self.now.steps }
        ensures count { length result.now ≡ self.now.count }
    {
        &self.steps[..self.count]
    }
}
