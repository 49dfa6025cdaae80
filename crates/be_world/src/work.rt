//! What is made for an entry before it.
ghost use Rattle.std.specs.Prelude.{◌≡◌, Option};
ghost use Rattle.be_changes.specs.declared.events.Delivered as events;
ghost use Rattle.be_command.specs.declared.Command as commands;
ghost use Rattle.be_handler.specs.declared.Route as routes;
ghost use Rattle.be_message.specs.Messages as messages;
ghost use Rattle.be_port.specs.declared.letter.Letter as letters;
ghost use Rattle.be_update.specs.Surveys.{Surveyed};

use be_changes::Delivered;
use be_command::Command;
use be_desk::Plan;
use be_handler::Route;
use be_message::Message;
use be_port::Letter;
use be_update::Survey;

/// What an entry needs beside the parts in hand.
#[derive(Drop)]
pub enum Work {
    Nothing,
    /// What is posted.
    Letter(Letter),
    Reply(Message),
    /// The message in front of a port, and its route.
    Taken(Message, Route),
    /// A copy of what is drawn.
    Command(Command),
    /// What an update is to draw, where a pixel waits.
    Survey(Option<Survey>),
    /// A change of a window, and the places of the panes that it alters, in the plan's order.
    Change(Plan, Vec<u32>),
    /// A change that the desk refuses.
    Refused,
    /// What an event of mouse or key delivers.
    Event(Delivered),
}

impl Work {
    pub(crate) fn into_letter(self) -> Letter
        requires { (letter : letters.Letter) × (self ≡ Work.Letter letter) }
        ensures { self ≡ Work.Letter result }
    {
        let Work::Letter(letter) = self else {
            unreachable!()
        };
        letter
    }

    pub(crate) fn into_reply(self) -> Message
        requires { (message : messages.Message) × (self ≡ Work.Reply message) }
        ensures { self ≡ Work.Reply result }
    {
        let Work::Reply(message) = self else {
            unreachable!()
        };
        message
    }

    pub(crate) fn into_taken(self) -> (Message, Route)
        requires { (message : messages.Message) × (route : routes.Route)
            × (self ≡ Work.Taken message route) }
        ensures { self ≡ Work.Taken result.0 result.1 }
    {
        let Work::Taken(message, route) = self else {
            unreachable!()
        };
        (message, route)
    }

    pub(crate) fn into_command(self) -> Command
        requires { (command : commands.Command) × (self ≡ Work.Command command) }
        ensures { self ≡ Work.Command result }
    {
        let Work::Command(command) = self else {
            unreachable!()
        };
        command
    }

    pub(crate) fn into_survey(self) -> Option<Survey>
        requires { (survey : Option Surveyed) × (self ≡ Work.Survey survey) }
        ensures { self ≡ Work.Survey result }
    {
        let Work::Survey(survey) = self else {
            unreachable!()
        };
        survey
    }

    pub(crate) fn into_event(self) -> Delivered
        requires { (delivered : events.Delivered) × (self ≡ Work.Event delivered) }
        ensures { self ≡ Work.Event result }
    {
        let Work::Event(delivered) = self else {
            unreachable!()
        };
        delivered
    }
}
