ghost use Rattle.be_port.specs.Laws.{OpensAsPort, AnswersAsPort, PostsAsPort, NoticesAsPort};
ghost use Rattle.be_port.specs.Laws.{TakesAsPort, EmptyAsPort, ClosesAsPort};

/// What a port keeps, the letters that wait with their messages flattened and the number of the
/// last one, is enough: where it stands for a port that remembers all messages that ever arrived,
/// it answers as that one, and stands for it after each call.
pub fn queues_are_ports()
    ensures opens { OpensAsPort }
    ensures answers { AnswersAsPort }
    ensures posts { PostsAsPort }
    ensures notices { NoticesAsPort }
    ensures takes { TakesAsPort }
    ensures empty { EmptyAsPort }
    ensures closes { ClosesAsPort }
{}
