ghost use Rattle.session_desk.specs.Offers.{BytesHaveOneOffer};

use pie_replay::one_verdict;

/// The bytes of a file make one offer: two of them say the same verdict, and so the same fact or the same refusal.
pub fn one_offer()
    ensures { BytesHaveOneOffer }
{
    one_verdict();
}
