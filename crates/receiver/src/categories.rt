// The category of a slide.
ghost use Rattle.std.specs.Prelude.{◌≡◌, true};
ghost use Rattle.receiver.specs.Views.{state_of};
ghost use Rattle.rules.specs.Worlds.{any, holding, in_category};
ghost use Rattle.slots.specs.Slides.{numbered};

use crate::parts::Parts;
use crate::sieves::Elsewhere;
use header::kinds::Category;
use rack::sieves::Other;

impl Parts {
    // Puts a held slide into a category, which it takes from any other slide, or into none.
    pub(crate) fn categorise(&mut self, category: Option<Category>, number: u32)
        requires { any (numbered number) (state_of self.old).slots ≡ true }
        ensures { state_of self.new ≡ holding (state_of self.old).slots (state_of self.old).waiting (in_category category number (state_of self.old).places) (state_of self.old) }
    {
        match category {
            None => self.places.keep(&Other(number)),
            Some(category) => {
                self.places.keep(&Elsewhere { number, category });
                let _ = self.places.put(category.into(), number);
            }
        }
    }
}
